//! What holds of every journal.

ghost use Rattle.std.specs.Prelude.{◌≡◌};
ghost use Rattle.farm_journal.specs.Laws.{OneDamage, OneMeaning, StandsOnEach, WholeIsNotRefused};
ghost use Rattle.farm_journal.specs.Limits.{around_body, before_header, length_bytes, max_bodies, max_body, signature_bytes};
ghost use Rattle.farm_journal.specs.declared.limits.TheConstants.{AROUND_BODY, BEFORE_HEADER, LENGTH_BYTES, MAX_BODIES, MAX_BODY, SIGNATURE_BYTES};

use farm_disk::Disk;

/// Does nothing: its contract is what holds of the bytes of every journal, and of what a crash leaves of an open one.
pub fn journal_laws<D: Disk>()
    ensures one_meaning { OneMeaning }
    ensures whole_is_not_refused { WholeIsNotRefused }
    ensures one_damage { OneDamage }
    ensures stands_on_each { StandsOnEach D.trace }

    // The numbers of the code are those of the format.
    ensures max_body { MAX_BODY ≡ max_body }
    ensures max_bodies { MAX_BODIES ≡ max_bodies }
    ensures before_header { BEFORE_HEADER ≡ before_header }
    ensures signature_bytes { SIGNATURE_BYTES ≡ signature_bytes }
    ensures length_bytes { LENGTH_BYTES ≡ length_bytes }
    ensures around_body { AROUND_BODY ≡ around_body }
{}
