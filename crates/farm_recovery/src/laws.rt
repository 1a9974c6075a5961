//! What holds of the bytes of every journal.

ghost use Rattle.farm_recovery.specs.Laws.{OneHistory, RecoveredIsNotRefused};

use site_decoding::decoding_laws;

/// Does nothing: its contract is what holds of the bytes of every journal.
pub fn recovery_laws()
    ensures one_history { OneHistory }
    ensures recovered_is_not_refused { RecoveredIsNotRefused }
{
    decoding_laws();
}
