//! Places of signatures.
ghost use Rattle.std.specs.Prelude.{◌≡◌, true};
ghost use Rattle.cesr_codes.specs.Indices.{has_form};
ghost use Rattle.controller_core.specs.ControllerCore.Slots as specs;

/// The places of a signature's key: in the list of signing keys and, where it has one, in the list of the next keys'
/// digests that the state before gives.
#[derive(Clone, Copy, PartialEq, Eq, Debug)]
pub struct Slot {
    pub index: u16,
    pub ondex: Option<u16>,
}

impl Slot {
    /// Whether it is the slot of one of so many keys, and two characters spell each of its places.
    pub(crate) fn is_in_range(&self, keys: usize) -> bool
        ensures { result ≡ specs.is_in_range keys self.now }
    {
        usize::from(self.index) < keys && self.is_spelled()
    }

    // Whether two characters spell each of its places.
    fn is_spelled(&self) -> bool
        ensures { result ≡ has_form true self.now.index self.now.ondex }
    {
        match self.ondex {
            None => self.index < 4_096,
            Some(ondex) => self.index < 4_096 && ondex < 4_096,
        }
    }

    /// Whether a signature in it has two characters for each place: where the index is over 63 or the other place is another.
    pub(crate) fn is_big(&self) -> bool
        ensures { result ≡ specs.is_big self.now }
    {
        match self.ondex {
            None => self.index >= 64,
            Some(ondex) => self.index >= 64 || ondex != self.index,
        }
    }
}
