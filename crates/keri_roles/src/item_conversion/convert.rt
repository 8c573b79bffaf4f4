//! Reading a source and writing its items.
ghost use Rattle.std.specs.Prelude.{◌≡◌, [], false};
ghost use Rattle.keri_outside.specs.Shown.{sink_shown};
ghost use Rattle.keri_roles.specs.ItemConversion.Progress.{IsIdle, HasPut, progress_of};
ghost use Rattle.keri_roles.specs.ItemConversion.Converts.{Converts, ConvertsWithin, bounds, conversion, ends_shown};

use crate::item_conversion::Conversion;
use crate::item_conversion::converter::Converter;
use cesr_binary::{Domain, MixedReader};
use keri_outside::{Limits, Sink, Source};
use run_status::Close;
use std::alloc::Global;

/// Reads the source in pieces, as far as a stream may be read, and writes each good item in the domain as soon
/// as it is whole. After the sink has failed nothing is put, but the source is read on.
pub fn convert_items<S: Source, K: Sink>(
    alloc: Global,
    source: &mut S,
    sink: &mut K,
    limits: Limits,
    domain: Domain,
) -> Conversion
    ensures { Converts limits domain
        (ends_shown S.left S.faults K.written K.faults source.old sink.old)
        (ends_shown S.left S.faults K.written K.faults source.new sink.new) result }
{
    let mut converter = Converter {
        reader: MixedReader::new(alloc, limits),
        domain,
        sink_failed: false,
    };
    let close = read_pieces(source, sink, limits.stream_bytes, &mut converter);
    Conversion {
        close,
        sink_failed: converter.sink_failed,
    }
}

// Reads pieces to a reader to which nothing was fed, and writes the items that they end.
fn read_pieces<S: Source, K: Sink>(
    source: &mut S,
    sink: &mut K,
    most: u64,
    converter: &mut Converter,
) -> Close
    requires idle { IsIdle converter.old.reader }
    requires none_put { HasPut (sink_shown K.written K.faults sink.old) []
        (progress_of K.written K.faults converter.old sink.old) }
    ensures { ConvertsWithin (bounds converter.old.reader.limit most) converter.old.domain
        (ends_shown S.left S.faults K.written K.faults source.old sink.old)
        (ends_shown S.left S.faults K.written K.faults source.new sink.new)
        (conversion result converter.new.sink_failed) }
{
    let mut room = most;
    while room > 0 {
        match converter.feed_piece(source, room) {
            Ok(0) => return converter.close_end(),
            Ok(count) => room -= count as u64,
            Err(close) => return close,
        }
        match converter.write_items(sink) {
            Ok(None) => {}
            Ok(Some(bad)) => return Close::Bad(bad),
            Err(_) => return Close::OutOfMemory,
        }
    }
    converter.close_full(source)
}
