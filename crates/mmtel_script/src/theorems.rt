//! A theorem about the listing of bytes: the contract of a function that does nothing.
ghost use Rattle.std.specs.Prelude.{◌≡◌, ℕ, List};
ghost use Rattle.mmtel_script.specs.Listing.{data_lines};
ghost use Rattle.mmtel_script.specs.ReadBack.{AreBytes, ReadsBack};
ghost use Rattle.mmtel_trust.specs.declared.known_peers.KnownPeer.{KnownPeer};

/// A theorem, without code: the lines that list bytes are data lines of scripts that give these bytes, so different lists of bytes have different listings.
pub fn listed_bytes_read_back()
    ensures reads_back { (known : List KnownPeer) (bytes : List ℕ) → AreBytes bytes → ReadsBack known bytes }
    ensures distinguished { (a b : List ℕ) → AreBytes a → AreBytes b → data_lines a ≡ data_lines b → a ≡ b }
{}
