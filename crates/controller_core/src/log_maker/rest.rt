//! What is left to make of a stream.
ghost use Rattle.std.specs.Prelude.{◌≡◌, ◌+◌, ◌<◌, ◌^◌};

use crate::log_maker::log::Log;
use cesr_codes::Digest;

/// The events that are left of the open log, and the logs behind it.
#[derive(Clone, Copy)]
pub(crate) struct Rest {
    pub(crate) log: Log,
    pub(crate) events_left: u64,
    /// How many events each log has.
    pub(crate) events: u64,
    pub(crate) logs_left: u64,
    ghost numbers_fit: { log.next.sn + events_left < 2 ^ 64 },
    ghost logs_fit: { log.next.log + logs_left < 2 ^ 64 },
    ghost some_events: { 0 < logs_left → 0 < events },
}

impl Rest {
    ghost use Rattle.std.specs.Prelude.{◌++◌, []};
    ghost use Rattle.event_body.specs.EventBody.Events.{said_of};
    ghost use Rattle.controller_core.specs.LogMaker.Making.{rest_text};
    ghost use Rattle.controller_core.specs.LogMaker.Messages.{message_text};
    ghost use Rattle.controller_core.specs.LogMaker.Plans.{event_at};
    ghost use Rattle.controller_core.specs.LogMaker.Streams.{stream_text};

    /// A whole stream.
    pub(crate) fn new(seed: u64, logs: u64, events: u64) -> Rest
        ensures { rest_text result ≡ stream_text seed logs events }
    {
        let log = Log::new(seed, 0);
        if logs == 0 || events == 0 {
            return Rest {
                log,
                events_left: 0,
                events,
                logs_left: 0,
            };
        }
        Rest {
            log,
            events_left: events,
            events,
            logs_left: logs - 1,
        }
    }

    /// The same, with the next log open where the open one has no event left.
    pub(crate) fn opened(self) -> Rest
        ensures same { rest_text result ≡ rest_text self }
        ensures end { result.events_left ≡ 0 → rest_text result ≡ [] }
    {
        if self.events_left > 0 || self.logs_left == 0 {
            return self;
        }
        Rest {
            log: Log::new(self.log.next.seed, self.log.next.log + 1),
            events_left: self.events,
            events: self.events,
            logs_left: self.logs_left - 1,
        }
    }

    /// What is left behind the next event, which has this digest.
    pub(crate) fn behind(self, said: Digest) -> Rest
        requires some { 0 < self.events_left }
        requires said { said ≡ said_of (event_at self.log.next.seed self.log.next.log self.log.next.sn) }
        ensures { rest_text self ≡ message_text self.log.next.seed self.log.next.log self.log.next.sn
            ++ rest_text result }
    {
        Rest {
            log: self.log.behind(said),
            events_left: self.events_left - 1,
            events: self.events,
            logs_left: self.logs_left,
        }
    }
}
