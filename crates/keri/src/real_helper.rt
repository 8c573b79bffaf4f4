//! Helpers.

use crate::real_sink::RealSink;
use crate::real_source::RealSource;
use crate::started_program::StartedProgram;
use verifier_link::Helper;

/// The rehearsal, or a program that was started.
pub(crate) type RealHelper = Helper<RealSource, RealSink, StartedProgram>;
