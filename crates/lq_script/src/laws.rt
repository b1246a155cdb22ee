//! Laws of scripts, each the contract of a function that does nothing.

ghost use Rattle.std.specs.Prelude.{ℕ, List, ◌++◌};
ghost use Rattle.lq_output.specs.Joined.{IsAccepted, SharesNone, NamesNoTheorem, joined, FitsJoined};

/// Two scripts that are accepted one by one, share no name and together with a line feed between them are no longer than a
/// script may be, are accepted one after the other, with their outputs joined. It is enough that no name in the second is
/// that of a theorem of the first.
pub fn accepted_scripts_join()
    // It holds for every budget of the kernel.
    ensures shares_none { (n : ℕ) (a b s t : List ℕ) → IsAccepted n a s → IsAccepted n b t →
        SharesNone a b → FitsJoined a b → IsAccepted n (joined a b) (s ++ t) }
    // So it is too where they share names, but none of a theorem of the first.
    ensures names_no_theorem { (n : ℕ) (a b s t : List ℕ) → IsAccepted n a s → IsAccepted n b t →
        NamesNoTheorem a b → FitsJoined a b → IsAccepted n (joined a b) (s ++ t) }
{}
