//! What the disks of an outside in memory hold.
ghost use Rattle.std.specs.Prelude.{◌≡◌, IfSome};
ghost use Rattle.std.specs.Option.{option_map};
ghost use Rattle.shelf_log.specs.KeriDisk.Memory.{mem_shown};
ghost use Rattle.run_status.specs.RunOutside.Disks.{disk_file_named, stored_under};

use crate::run_outside::MemDiskFile;
use lists::CopyValue;
use shelf_log::MemDisk;
use std::alloc::Global;

// The first file of a name.
fn find<'a>(files: &'a [MemDiskFile], name: &str) -> Option<&'a MemDiskFile>
    ensures { option_map (λ file. file.now) result ≡ disk_file_named files.now name.now }
{
    files
        .iter()
        .find(|file| file.name.as_slice() == name.as_bytes())
}

// A disk of the name, where there is a file and memory for its copy.
pub(crate) fn disk_of(alloc: Global, files: &[MemDiskFile], name: &str) -> Option<MemDisk>
    ensures file { IfSome result (λ disk. (mem_shown disk).file ≡ stored_under files.now name.now) }
    ensures faults { IfSome result (λ disk. (mem_shown disk).faults ≡ 0) }
{
    let Some(file) = find(files, name) else {
        return None;
    };
    let Ok(bytes) = file.bytes.copy(alloc) else {
        return None;
    };
    let Ok(failing) = file.failing.copy(alloc) else {
        return None;
    };
    MemDisk::new(alloc, bytes.into_vec(), failing).ok()
}
