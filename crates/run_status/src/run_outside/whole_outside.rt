//! All that a program reaches.
ghost use Rattle.std.specs.Prelude.{◌≡◌, IfOk};
ghost use Rattle.std.specs.Borrow.{Lends, sem};
ghost use Rattle.lists.specs.KeriSpecs.Shown.{HasNone};
ghost use Rattle.run_status.specs.RunOutside.Shown.{OutsideShown, Makes};
ghost use Rattle.run_status.specs.declared.run_outside.making.MakingKind.TheVariants.{Source as SourceKind, Verifier as VerifierKind};
ghost use Rattle.run_status.specs.declared.run_outside.making.MakingKind.TheVariants.{Signer as SignerKind, Disk as DiskKind, OldDisk as OldDiskKind};
ghost use Rattle.run_status.specs.declared.run_outside.making.MakingKind.TheVariants.{Door as DoorKind};

use keri_outside::{Door, Failed, Gate, Limits, Signer, Sink, Source, Verifier};
use shelf_log::Disk;

/// The objects that a program is given. What it gives out wasn't asked yet, and starts with a count of no faults. A source and a
/// verifier may go to the thread of a reader, and all readers pass the one gate.
pub trait Outside {
    type Source: Source + Drop + Send;

    type Verifier: Verifier + Drop + Send;

    type Signer: Signer + Drop;

    type Disk: Disk + Drop;

    type Door: Door<Source = Self::Source> + Drop;

    type Sink: Sink + Drop;

    type Gate: Gate + Drop + Sync;

    /// What it shows, but for the sink.
    ghost shown: { Self → OutsideShown };

    /// The sink that it holds, and itself with another sink.
    ghost sink: { Self → Self.Sink };

    ghost with_sink: { Self → Self.Sink → Self };

    /// Makes the source of a name.
    fn source(&mut self, name: &str) -> Result<Self::Source, Failed>
        ensures makes { Makes SourceKind name.now (shown self.old) (shown self.new) result }
        ensures holds { IfOk result (λ source. Self.Source.left source ≡ (shown self.old).holds name.now) }
        ensures none_yet { IfOk result (λ source. Self.Source.faults source ≡ 0) }
        ensures same_sink { sink self.new ≡ sink self.old };

    /// Makes the verifier of a name.
    fn verifier(&mut self, name: &str) -> Result<Self::Verifier, Failed>
        ensures makes { Makes VerifierKind name.now (shown self.old) (shown self.new) result }
        ensures says { IfOk result (λ verifier. Self.Verifier.says verifier ≡ (shown self.old).says name.now) }
        ensures unasked { IfOk result (λ verifier. HasNone (Self.Verifier.inquiries verifier)) }
        ensures none_yet { IfOk result (λ verifier. Self.Verifier.faults verifier ≡ 0) }
        ensures same_sink { sink self.new ≡ sink self.old };

    /// Makes the signer of a name.
    fn signer(&mut self, name: &str) -> Result<Self::Signer, Failed>
        ensures makes { Makes SignerKind name.now (shown self.old) (shown self.new) result }
        ensures gives { IfOk result (λ signer. Self.Signer.gives signer ≡ (shown self.old).gives name.now) }
        ensures unasked { IfOk result (λ signer. HasNone (Self.Signer.signings signer)) }
        ensures none_yet { IfOk result (λ signer. Self.Signer.faults signer ≡ 0) }
        ensures same_sink { sink self.new ≡ sink self.old };

    /// Makes the disk of a name. What a crash may leave of its file isn't said until it is synced.
    fn disk(&mut self, name: &str) -> Result<Self::Disk, Failed>
        ensures makes { Makes DiskKind name.now (shown self.old) (shown self.new) result }
        ensures holds { IfOk result (λ disk. (Self.Disk.shown disk).file ≡ (shown self.old).stored name.now) }
        ensures none_yet { IfOk result (λ disk. (Self.Disk.shown disk).faults ≡ 0) }
        ensures same_sink { sink self.new ≡ sink self.old };

    /// Makes the disk of a name whose file is there and is only read. Where there is no such file it fails, and makes none.
    fn old_disk(&mut self, name: &str) -> Result<Self::Disk, Failed>
        ensures makes { Makes OldDiskKind name.now (shown self.old) (shown self.new) result }
        ensures holds { IfOk result (λ disk. (Self.Disk.shown disk).file ≡ (shown self.old).stored name.now) }
        ensures none_yet { IfOk result (λ disk. (Self.Disk.shown disk).faults ≡ 0) }
        ensures same_sink { sink self.new ≡ sink self.old };

    /// Makes the door of a name, at which links come.
    fn door(&mut self, name: &str) -> Result<Self::Door, Failed>
        ensures makes { Makes DoorKind name.now (shown self.old) (shown self.new) result }
        ensures holds { IfOk result (λ door. Self.Door.left door ≡ (shown self.old).links name.now) }
        ensures none_yet { IfOk result (λ door. Self.Door.faults door ≡ 0) }
        ensures same_sink { sink self.new ≡ sink self.old };

    /// Lends the sink.
    fn out(&mut self) -> &mut Self::Sink
        ensures* writes_back { sem 𝓛 (Lends Self.row Self.Sink.row self.entry result (with_sink self.old)) }
        ensures value { result.now ≡ sink self.old };

    /// The gate that readers pass.
    fn gate(&self) -> &Self::Gate;

    /// The limits, which no call changes.
    fn limits(&self) -> Limits
        ensures { result ≡ (shown self.now).limits };

    // A write to the sink changes the sink alone.
    ghost lent: { (outside : Self) (other : Self.Sink) → sink (with_sink outside other) ≡ other };

    ghost tells_the_same: { (outside : Self) (other : Self.Sink) → shown (with_sink outside other) ≡ shown outside };
}
