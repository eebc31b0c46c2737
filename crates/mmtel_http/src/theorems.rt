//! Theorems about the definitions.
ghost use Rattle.std.specs.Prelude.{◌≡◌, ◌≤◌, ℕ, List, [], Some, length};
ghost use Rattle.httparse.specs.Grammar.{RequestHead, ReadsRequest};
ghost use Rattle.mmtel_http.specs.Heads.{head_of};
ghost use Rattle.mmtel_http.specs.Completeness.{CompleteRequestsAreFinal, UnfinishedIsShort};

/// A theorem, without code: the total function accepts the heads that the grammar of `httparse` has, of at most 64 fields, and no other.
pub fn heads_are_of_the_grammar()
    ensures sound { (bytes : List ℕ) (h : RequestHead) → head_of bytes ≡ Some h → ReadsRequest bytes h [] }
    ensures small { (bytes : List ℕ) (h : RequestHead) → head_of bytes ≡ Some h → length h.fields ≤ 64 }
    ensures complete { (bytes : List ℕ) (h : RequestHead) → ReadsRequest bytes h [] → length h.fields ≤ 64 → head_of bytes ≡ Some h }
{}

/// A theorem, without code: what follows a whole request on its connection changes nothing of the request, and the length of one that is not yet whole is bounded.
pub fn complete_requests_are_final()
    ensures stand { CompleteRequestsAreFinal }
    ensures short { UnfinishedIsShort }
{}
