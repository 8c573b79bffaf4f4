//! Limits of a run.
ghost use Rattle.std.specs.Prelude.{◌≡◌, ◌≤◌, ◌^◌};

/// How much a run takes. Each number is at most the program's.
#[derive(Clone, Copy, PartialEq, Eq, Debug)]
pub struct Limits {
    /// Bytes of a body.
    pub body: u32,
    /// Messages that a core takes.
    pub messages: u32,
    /// Bytes of all distinct bodies of a core.
    pub body_bytes: u32,
    /// Signatures and receipts that a core takes.
    pub signatures: u32,
    /// Signatures, receipts and other elements of one message.
    pub message_signatures: u16,
    /// Bytes that are read of one source.
    pub stream_bytes: u64,
    /// Turns of a lock.
    pub turns: u64,
    /// Records of a shelf.
    pub records: u32,
    /// Bytes of a shelf.
    pub shelf_bytes: u32,
    ghost body_standard: { body ≤ 65535 },
    ghost messages_standard: { messages ≤ 1048576 },
    ghost body_bytes_standard: { body_bytes ≤ 536870912 },
    ghost signatures_standard: { signatures ≤ 2097152 },
    ghost message_signatures_standard: { message_signatures ≤ 1024 },
    ghost stream_bytes_standard: { stream_bytes ≤ 4294967296 },
    ghost turns_standard: { turns ≤ 2 ^ 62 },
    ghost records_standard: { records ≤ 1048576 },
    ghost shelf_bytes_standard: { shelf_bytes ≤ 1073741824 },
}

impl Limits {
    ghost use Rattle.keri_outside.specs.Standard.{IsStandard};

    /// The limits of the program.
    pub fn standard() -> Limits
        ensures { IsStandard result }
    {
        Limits {
            body: 65_535,
            messages: 1_048_576,
            body_bytes: 536_870_912,
            signatures: 2_097_152,
            message_signatures: 1_024,
            stream_bytes: 4_294_967_296,
            turns: 1 << 62,
            records: 1_048_576,
            shelf_bytes: 1_073_741_824,
        }
    }
}
