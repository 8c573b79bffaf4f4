//! Reading the item at the front of bytes, in either domain.
ghost use Rattle.std.specs.Prelude.{◌≡◌, ◌≤◌, ◌<◌, ◌%◌, ◌^◌, [], OnOk, List, ℕ, length, take, slice_index};
ghost use Rattle.cesr_stream.specs.Reading.{fresh};
ghost use Rattle.cesr_binary.specs.BinaryDomain.{is_binary, text_of};
ghost use Rattle.cesr_binary.specs.GivenBytes.{GoesOn, IsGiven, JudgesFront, WhereOpen};
ghost use Rattle.cesr_binary.specs.GivenBytes.{either_place, turnable};

use base64::engine::general_purpose::URL_SAFE_NO_PAD;
use cesr_stream::{Bad, Reader, Step};
use keri_outside::Limits;
use std::alloc::{AllocError, Global};

/// So many bytes are given at once at most, and so many at least where they are there: whole threes.
const MOST: usize = 768;

const LEAST: usize = 48;

/// A reader of texts, and how many bytes it was given: as they are, or as characters where they are binary.
#[derive(Drop)]
pub(crate) struct EitherReader {
    pub text: Reader,
    pub given: usize,
}

impl EitherReader {
    /// A reader that was given nothing.
    pub(crate) fn new(alloc: Global, limits: Limits) -> EitherReader
        ensures text { result.text ≡ fresh limits.body }
        ensures given { IsGiven [] result }
    {
        EitherReader {
            text: Reader::new(alloc, limits),
            given: 0,
        }
    }

    /// The item at the front of the bytes with its length, or how the front is judged.
    pub(crate) fn read(&mut self, bytes: &[u8]) -> Result<Step, AllocError>
        requires { IsGiven bytes.now self.old }
        ensures judged { JudgesFront self.old.text.limit self.old.text.begun bytes.now result }
        ensures goes_on { WhereOpen result (GoesOn bytes.now self.old self.new) }
        ensures limit { self.new.text.limit ≡ self.old.text.limit }
    {
        let all = turnable(bytes);
        while self.given < all {
            match self.step(bytes)? {
                Step::NeedMore => {}
                step => return Ok(step),
            }
            self.give(bytes, all)?;
        }
        self.step(bytes)
    }

    /// Begins anew, behind a body or before any.
    pub(crate) fn restart(&mut self, begun: bool)
        ensures limit { self.new.text.limit ≡ self.old.text.limit }
        ensures begun { self.new.text.begun ≡ begun }
        ensures given { (bytes : List ℕ) → IsGiven bytes self.new }
    {
        self.text.restart(begun);
        self.given = 0;
    }

    // How the bytes that were given are judged.
    fn step(&mut self, bytes: &[u8]) -> Result<Step, AllocError>
        requires { IsGiven bytes.now self.old }
        ensures judged { JudgesFront self.old.text.limit self.old.text.begun
            (take self.old.given bytes.now) result }
        ensures given { self.new.given ≡ self.old.given }
        ensures goes_on { WhereOpen result (GoesOn bytes.now self.old self.new) }
        ensures limit { self.new.text.limit ≡ self.old.text.limit }
    {
        let before = self.text.buffered();
        match self.text.next()? {
            Step::Item(item, _) => {
                let length = before - self.text.buffered();
                Ok(Step::Item(item, either_place(bytes, length)))
            }
            Step::Bad(bad) => {
                let place = either_place(bytes, bad.place);
                Ok(Step::Bad(Bad { place, ..bad }))
            }
            Step::NeedMore => Ok(Step::NeedMore),
        }
    }

    // Gives as many bytes more as it has, and a few where it has none.
    fn give(&mut self, bytes: &[u8], all: usize) -> Result<(), AllocError>
        requires given { IsGiven bytes.now self.old }
        requires all { all ≡ turnable bytes.now }
        requires more { self.old.given < all }
        requires short { length bytes.now < 2 ^ 63 }
        ensures goes_on { GoesOn bytes.now self.old self.new }
        ensures limit { self.new.text.limit ≡ self.old.text.limit }
        ensures further { OnOk result (self.old.given < self.new.given) }
    {
        let count = self.given.max(LEAST).min(MOST).min(all - self.given);
        let piece = &bytes[self.given..self.given + count];
        if begins_binary(bytes) {
            let mut characters = [0u8; 1024];
            let length = turn(piece, &mut characters);
            self.text.feed(&characters[..length])?;
        } else {
            self.text.feed(piece)?;
        }
        self.given += count;
        Ok(())
    }
}

// Whether the first byte is that of a dash in binary.
fn begins_binary(bytes: &[u8]) -> bool
    ensures { result ≡ is_binary (slice_index bytes.now 0) }
{
    matches!(bytes, [0xf8..=0xfb, ..])
}

// How many of the bytes can be turned.
fn turnable(bytes: &[u8]) -> usize
    ensures all { result ≡ turnable bytes.now }
    ensures short { length bytes.now < 2 ^ 63 }
{
    if begins_binary(bytes) {
        bytes.len() / 3 * 3
    } else {
        bytes.len()
    }
}

// A place in the characters, as one in the bytes.
fn either_place(bytes: &[u8], place: u64) -> u64
    ensures { result ≡ either_place bytes.now place }
{
    if begins_binary(bytes) {
        place / 4 * 3
    } else {
        place
    }
}

// Puts the characters of whole threes of bytes, and says how many they are.
fn turn(bytes: &[u8], characters: &mut [u8; 1024]) -> usize
    requires threes { length bytes.now % 3 ≡ 0 }
    requires few { length bytes.now ≤ 768 }
    ensures few { result ≤ 1024 }
    ensures text { take result characters.new ≡ text_of bytes.now }
{
    match URL_SAFE_NO_PAD.encode_slice(bytes, characters) {
        Ok(count) => count,
        Err(_) => unreachable!(),
    }
}
