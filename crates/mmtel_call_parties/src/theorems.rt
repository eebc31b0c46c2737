//! Theorems about the definitions that contracts cite: each is the contract of a function that does nothing.
ghost use Rattle.std.specs.Prelude.{◌≡◌, ◌++◌, ◌∷◌, true, false, List, ℕ, Some};
ghost use Rattle.mmtel_lex.specs.declared.values.NameAddr.{NameAddr};
ghost use Rattle.mmtel_lex.specs.declared.values.Param.{Param};
ghost use Rattle.mmtel_lex.specs.declared.values.Uri.TheVariants.{Tel};
ghost use Rattle.mmtel_message.specs.Message.{Line, Message};
ghost use Rattle.mmtel_message.specs.declared.messages.Start.{Start};
ghost use Rattle.mmtel_served_user.specs.Targets.{new_target};
ghost use Rattle.mmtel_trust.specs.Accounts.{account_of};
ghost use Rattle.mmtel_trust.specs.ParsedMessage.{Originating, ParsedMessage, Terminating, caller_account, case_of, parsed_message, served_account, served_by, served_origin};
ghost use Rattle.mmtel_trust.specs.MaskedMessages.{Restriction, mask, public_part};
ghost use Rattle.mmtel_trust.specs.declared.accounts.AccountIdentity.{AccountIdentity};
ghost use Rattle.mmtel_call_parties.specs.Theorems.{AllNameNumberAndSipUri, AreDigits, NamesUser, served_line, untrusted_parties};
ghost use Rattle.mmtel_call_parties.specs.Parties.{account_in, origin_served, parties_of};

use mmtel_trust::equal_masks_decide_the_same;

/// Only a trusted peer is believed: of a request from another one the caller has no account, both sides are served, the target's account is that of the Request-URI, and nothing
/// is known of its registration.
pub fn strangers_are_not_believed()
    ensures parties { (accounts : List AccountIdentity) (m : Message Start) → parties_of accounts (parsed_message false m) ≡ untrusted_parties accounts m.start }
{}

/// Of several P-Served-User lines the first counts: what follows it changes neither what is asserted of the user nor who is served as the caller.
pub fn first_served_user_counts()
    ensures unchanged { (before after : List Line) (value : List ℕ) → served_line before ≡ Some value → served_by (served_line (before ++ after)) ≡ served_by (served_line before) }
    ensures origin { (before after : List Line) (value : List ℕ) → served_line before ≡ Some value → served_origin (before ++ after) ≡ served_origin before }
{}

/// The user whom a trusted peer names as served determines its side alone: the account of that side is the user's, or none, whoever the caller is and whatever was requested.
pub fn served_user_alone_decides()
    ensures origin { (es : List AccountIdentity) (m : Message Start) (user : NameAddr) → NamesUser m user → case_of user.params ≡ Originating →
        (parties_of es (parsed_message true m)).origin ≡ account_in es user.uri }
    ensures target { (es : List AccountIdentity) (m : Message Start) (user : NameAddr) → NamesUser m user → case_of user.params ≡ Terminating →
        (parties_of es (parsed_message true m)).target ≡ account_in es user.uri }
{}

/// The origin that is served is the account whose record restricts the caller.
pub fn served_origin_restricts()
    ensures account { (accounts : List AccountIdentity) (m : ParsedMessage) → origin_served (parties_of accounts m) ≡ served_account accounts m }
{}

/// The only private fact on which the parties depend is the account of the caller: two messages that are equal in what is never private, and whose callers have the same account,
/// have the same parties; so have two messages of equal masks.
pub fn parties_rest_on_the_mask()
    ensures public { (es : List AccountIdentity) (m n : ParsedMessage) → public_part m ≡ public_part n → caller_account es m ≡ caller_account es n →
        parties_of es m ≡ parties_of es n }
    ensures masked { (restricts : Restriction) (es : List AccountIdentity) (m n : ParsedMessage) → mask restricts es m ≡ mask restricts es n → parties_of es m ≡ parties_of es n }
{
    equal_masks_decide_the_same();
}

/// A global number and the target that is made of it have the same account, where each identity of an account names both or neither: where no sip URI has the number as its user
/// except one of the home domain with `user=phone`.
pub fn numbers_find_the_same_account()
    ensures account { (es : List AccountIdentity) (home ds : List ℕ) (ps : List Param) → AreDigits ds → AllNameNumberAndSipUri es home ds →
        account_of es (new_target home (Tel (43 ∷ ds) ps)) ≡ account_of es (Tel (43 ∷ ds) ps) }
{}
