//! What the transfer of the day posts.

ghost use Rattle.std.specs.Prelude.{◌≡◌, [], ◌∷◌, Some, pos, negsuc};
ghost use Rattle.farm_history.specs.Postings.{postings_of_sides, unnamed};
ghost use Rattle.farm_stock.specs.declared.posting.Kind.{Kind};
ghost use Rattle.farm_ticket.specs.declared.side.Side.{Side};

/// Does nothing: its contract is what the transfer of the day posts, by the definition of postings.
pub fn a_transfer_posts()
    ensures posted { (first second : Side) → first.tank ≡ 101 → second.tank ≡ 102 →
        first.moved.nsv ≡ pos 495859 → first.moved.mass ≡ pos 421481 → second.moved.nsv ≡ pos 495000 → second.moved.mass ≡ pos 420750 →
        postings_of_sides 0 first (Some second) ≡
        unnamed 101 Kind.TransferOut (record { litres = negsuc 495858; kg = negsuc 421480 })
        ∷ unnamed 102 Kind.TransferIn (record { litres = pos 495859; kg = pos 421481 })
        ∷ unnamed 102 Kind.Gain (record { litres = negsuc 858; kg = negsuc 730 }) ∷ [] }
{}
