//! What follows from the definitions for the numbers of each width.

ghost use Rattle.std.specs.Prelude.{◌<◌, ◌^◌, FitsSigned, [], ◌∷◌};
ghost use Rattle.std.specs.Int.{cast_unsigned, to_be_bytes, w16, w32, w64};
ghost use Rattle.byte_readers.specs.ByteReaders.{byte_at, number_at, signed_at};
ghost use Rattle.byte_readers.specs.Readers.{IsReader};

/// Does nothing: its contract is that a number of each type is read from its bytes, whatever follows them, and from no others.
pub fn reader_laws<F: Copy>(short: F)
    ensures bytes { IsReader (λ byte. byte < 2 ^ 8) (λ byte. byte ∷ []) (byte_at short) }
    ensures numbers_16 { IsReader (λ number. number < 2 ^ 16) (to_be_bytes w16) (number_at short w16) }
    ensures numbers_32 { IsReader (λ number. number < 2 ^ 32) (to_be_bytes w32) (number_at short w32) }
    ensures numbers_64 { IsReader (λ number. number < 2 ^ 64) (to_be_bytes w64) (number_at short w64) }
    ensures signed_16 { IsReader (FitsSigned w16) (λ number. to_be_bytes w16 (cast_unsigned w16 number)) (signed_at short w16) }
    ensures signed_64 { IsReader (FitsSigned w64) (λ number. to_be_bytes w64 (cast_unsigned w64 number)) (signed_at short w64) }
{}
