//! What the files of an outside in memory hold.
ghost use Rattle.std.specs.Prelude.{◌≡◌, IfSome};
ghost use Rattle.std.specs.Option.{option_map};
ghost use Rattle.run_status.specs.RunOutside.Files.{file_named, held_under};
ghost use Rattle.keri_outside.specs.Memory.{source_left, source_faults};

use crate::run_outside::MemFile;
use keri_outside::MemSource;
use lists::CopyValue;
use std::alloc::Global;

// The first file of a name.
fn find<'a>(files: &'a [MemFile], name: &str) -> Option<&'a MemFile>
    ensures { option_map (λ file. file.now) result ≡ file_named files.now name.now }
{
    files
        .iter()
        .find(|file| file.name.as_slice() == name.as_bytes())
}

// A source of the name, where there is a file and memory for its copy.
pub(crate) fn source_of(alloc: Global, files: &[MemFile], name: &str) -> Option<MemSource>
    ensures left { IfSome result (λ source. source_left source ≡ held_under files.now name.now) }
    ensures faults { IfSome result (λ source. source_faults source ≡ 0) }
{
    let Some(file) = find(files, name) else {
        return None;
    };
    let Ok(bytes) = file.bytes.copy(alloc) else {
        return None;
    };
    let Ok(failing) = file.failing.copy(alloc) else {
        return None;
    };
    Some(MemSource::new(bytes, file.piece, failing))
}
