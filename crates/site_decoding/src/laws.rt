//! What follows from the definitions for every part of a site.

ghost use Rattle.site_decoding.specs.Parts.{HeadsAreRead, LinesAreRead, PartiesAreRead, ProductsAreRead, TanksAreRead};

/// Does nothing: its contract is that each part of a site is read from its bytes, whatever follows them, and from no others.
pub fn decoding_laws()
    ensures heads { HeadsAreRead }
    ensures products { ProductsAreRead }
    ensures parties { PartiesAreRead }
    ensures tanks { TanksAreRead }
    ensures lines { LinesAreRead }
{}
