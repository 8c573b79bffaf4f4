//! Texts of what counters count.

use crate::writable::{Writable, put_both};
use crate::{AnchorCouple, Couple, DomainWriter, Seen};
use cesr_codes::IndexedSig;
use keri_outside::{Failed, Sink};

impl Writable for IndexedSig {
    ghost use Rattle.cesr_codes.specs.Indexed.{indexed_text};

    ghost text = { indexed_text };

    fn size(&self) -> usize {
        if self.big { 92 } else { 88 }
    }

    fn put<W: DomainWriter, S: Sink>(&self, sink: &mut S) -> Result<(), Failed> {
        let mut text = [0u8; 92];
        let count = self.write(&mut text);
        W::put_text(&text[..count], sink)
    }
}

impl Writable for Couple {
    ghost use Rattle.cesr_stream.specs.Texts.{couple_text};

    ghost text = { couple_text };

    fn size(&self) -> usize {
        132
    }

    fn put<W: DomainWriter, S: Sink>(&self, sink: &mut S) -> Result<(), Failed> {
        let mut key = [0u8; 44];
        self.key.write(&mut key);
        let mut sig = [0u8; 88];
        self.sig.write(&mut sig);
        put_both::<W, S>(&key, &sig, sink)
    }
}

impl Writable for Seen {
    ghost use Rattle.cesr_stream.specs.Texts.{seen_text};

    ghost text = { seen_text };

    fn size(&self) -> usize {
        60
    }

    fn put<W: DomainWriter, S: Sink>(&self, sink: &mut S) -> Result<(), Failed> {
        let mut number = [0u8; 24];
        self.number.write(&mut number);
        let mut moment = [0u8; 36];
        self.moment.write(&mut moment);
        put_both::<W, S>(&number, &moment, sink)
    }
}

impl Writable for AnchorCouple {
    ghost use Rattle.cesr_stream.specs.Texts.{anchor_text};

    ghost text = { anchor_text };

    fn size(&self) -> usize {
        68
    }

    fn put<W: DomainWriter, S: Sink>(&self, sink: &mut S) -> Result<(), Failed> {
        let mut number = [0u8; 24];
        self.number.write(&mut number);
        let mut digest = [0u8; 44];
        self.digest.write(&mut digest);
        put_both::<W, S>(&number, &digest, sink)
    }
}
