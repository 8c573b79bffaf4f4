//! Rows of the report.
ghost use Rattle.std.specs.Prelude.{◌≡◌};
ghost use Rattle.cesr_codes.specs.Spelling.{prefix_text};
ghost use Rattle.event_body.specs.EventBody.Events.{prefix_of as event_prefix};

use event_body::Event;
use std::cmp::Ordering;

/// A body, and the lines that stand for it.
#[derive(Drop)]
pub(crate) struct Row<'a> {
    pub(crate) body: &'a [u8],
    pub(crate) event: &'a Event,
    /// The text of its prefix, by which rows are ordered first.
    pub(crate) prefix: [u8; 44],
    pub(crate) lines: String,
    ghost spelled: { prefix ≡ prefix_text (event_prefix event.now) },
}

impl<'a> Row<'a> {
    ghost use Rattle.std.specs.Prelude.{string_bytes};
    ghost use Rattle.report_lines.specs.Report.{behind_cmp, body_cmp};
    ghost use Rattle.report_lines.specs.Rows.{body_of};

    /// The row of a body with its event.
    pub(crate) fn new(body: &'a [u8], event: &'a Event, lines: String) -> Row<'a>
        ensures body { body_of result ≡ record { bytes = body.now; event = event.now } }
        ensures lines { string_bytes result.lines ≡ string_bytes lines }
    {
        let mut prefix = [0; 44];
        event.prefix().write(&mut prefix);
        Row {
            body,
            event,
            prefix,
            lines,
        }
    }

    /// How the rows are ordered: by prefix, then by number, then by the body's bytes.
    pub(crate) fn compare(&self, other: &Row<'_>) -> Ordering
        ensures { result ≡ body_cmp (body_of self.now) (body_of other.now) }
    {
        match self.prefix.cmp(&other.prefix) {
            Ordering::Equal => self.compare_behind(other),
            order => order,
        }
    }

    // How rows of one prefix are ordered.
    fn compare_behind(&self, other: &Row<'_>) -> Ordering
        ensures { result ≡ behind_cmp (body_of self.now) (body_of other.now) }
    {
        match self.event.sn().cmp(&other.event.sn()) {
            Ordering::Equal => self.body.cmp(other.body),
            order => order,
        }
    }
}
