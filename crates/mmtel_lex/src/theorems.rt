//! Theorems about the definitions that the contracts of readers cite: each is the contract of a function that does nothing.
ghost use Rattle.std.specs.Prelude.{◌≡◌, ◌==◌, ◌+◌, ◌*◌, ◌∷◌, ◌↔◌, ℕ, List, Option, Some, false, true};
ghost use Rattle.std.specs.Option.{option_map};
ghost use Rattle.std.specs.Str.{str_to_ascii_lowercase};
ghost use Rattle.mmtel_base.specs.Classes.{IsAll};
ghost use Rattle.mmtel_base.specs.declared.classes.Class.TheVariants.{UriByte};
ghost use Rattle.mmtel_base.specs.Scanning.{IsFree};
ghost use Rattle.mmtel_lex.specs.Grammar.{IsParams, IsUri, uri_text, IsForeign, IsNameAddr};
ghost use Rattle.mmtel_lex.specs.Identity.{without_separators, has_user_phone, IsSameIdentity};
ghost use Rattle.mmtel_lex.specs.Percent.{hex_value, percent_decoded_text};
ghost use Rattle.mmtel_lex.specs.SameIdentity.{is_same_identity};
ghost use Rattle.mmtel_lex.specs.declared.values.NameAddr.{NameAddr};
ghost use Rattle.mmtel_lex.specs.declared.values.Param.{Param};
ghost use Rattle.mmtel_lex.specs.declared.values.Uri.{Uri};
ghost use Rattle.mmtel_lex.specs.declared.values.Uri.TheVariants.{Sip, Tel};

/// One list of bytes spells one list of parameters at most.
pub fn params_are_unique()
    ensures one { (s : List ℕ) (ps qs : List Param) → IsParams s ps → IsParams s qs → ps ≡ qs }
{}

/// One list of bytes spells one URI at most, and none where it begins with another scheme.
pub fn uris_are_unique()
    ensures one { (s : List ℕ) (u v : Uri) → IsUri s u → IsUri s v → u ≡ v }
    ensures not_foreign { (s : List ℕ) (u : Uri) → IsUri s u → IsForeign s → ⊥ }
{}

/// A URI has visible bytes alone, and of these no quote and no angle bracket, as it was read and as it is printed: so a URI cannot put a line, a blank or a quoted string
/// into a message.
pub fn uris_are_visible()
    ensures text { (s : List ℕ) (u : Uri) → IsUri s u → IsAll UriByte s }
    ensures printed { (s : List ℕ) (u : Uri) → IsUri s u → IsAll UriByte (uri_text u) }
{}

/// One list of bytes spells one name-addr at most.
pub fn name_addrs_are_unique()
    ensures one { (s : List ℕ) (n m : NameAddr) → IsNameAddr s n → IsNameAddr s m → n ≡ m }
{}

/// Identity is reflexive and symmetric.
pub fn identity_is_mutual()
    ensures reflexive { (u : Uri) → IsSameIdentity u u }
    ensures symmetric { (u v : Uri) → IsSameIdentity u v → IsSameIdentity v u }
{}

/// The test of identity is true exactly of the URIs that name the same identity.
pub fn identity_is_tested()
    ensures exact { (u v : Uri) → is_same_identity u v ≡ true ↔ IsSameIdentity u v }
{}

/// Between sip URIs identity does not depend on the port, the parameters, the header part and the case of the host.
pub fn sip_identity_is_user_and_host()
    ensures same { (user other_user : Option (List ℕ)) (host host2 other_host : List ℕ) (port port2 other_port : Option ℕ) (params params2 other_params : List Param)
        (headers headers2 other_headers : List ℕ) → str_to_ascii_lowercase host ≡ str_to_ascii_lowercase host2 →
        IsSameIdentity (Sip user host port params headers) (Sip other_user other_host other_port other_params other_headers)
        ↔ IsSameIdentity (Sip user host2 port2 params2 headers2) (Sip other_user other_host other_port other_params other_headers) }
{}

/// Between tel URIs identity does not depend on the parameters and the visual separators.
pub fn tel_identity_is_number()
    ensures same { (number number2 other : List ℕ) (params params2 other_params : List Param) → without_separators number ≡ without_separators number2 →
        IsSameIdentity (Tel number params) (Tel other other_params) ↔ IsSameIdentity (Tel number2 params2) (Tel other other_params) }
{}

/// Between a sip and a tel URI identity depends only on the user of the sip URI, on whether its first parameter `user` has the value `phone`, and on the digits of the tel URI.
pub fn phone_identity_is_user_and_number()
    ensures same { (user : Option (List ℕ)) (host host2 number number2 : List ℕ) (port port2 : Option ℕ) (params params2 tel_params tel_params2 : List Param)
        (headers headers2 : List ℕ) → has_user_phone params ≡ has_user_phone params2 → without_separators number ≡ without_separators number2 →
        IsSameIdentity (Sip user host port params headers) (Tel number tel_params) ↔ IsSameIdentity (Sip user host2 port2 params2 headers2) (Tel number2 tel_params2) }
{}

/// A byte that is no `%` decodes to itself, and an escaped byte to the byte that its digits write; so a text without `%` decodes to itself.
pub fn escapes_stand_for_their_byte()
    ensures plain { (s : List ℕ) → IsFree 37 s → percent_decoded_text s ≡ Some s }
    ensures other { (b : ℕ) (s : List ℕ) → (b == 37) ≡ false → percent_decoded_text (b ∷ s) ≡ option_map (λ t. b ∷ t) (percent_decoded_text s) }
    ensures escaped { (a b high low : ℕ) (s : List ℕ) → hex_value a ≡ Some high → hex_value b ≡ Some low →
        percent_decoded_text (37 ∷ a ∷ b ∷ s) ≡ option_map (λ t. (high * 16 + low) ∷ t) (percent_decoded_text s) }
{}
