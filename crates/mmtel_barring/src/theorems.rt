//! Theorems about the definitions that contracts cite: each is the contract of a function that only calls the theorems about the rules on which it is based.
ghost use Rattle.std.specs.Prelude.{◌≡◌, ◌≢◌, Bool, true, false, List, ◌∷◌, ◌++◌, Option, Some, None, is_some};
ghost use Rattle.std.specs.List.Sorted.{IsPermutation};
ghost use Rattle.mmtel_rules.specs.IdentityParts.{MatchEqually, identity_parts};
ghost use Rattle.mmtel_rules.specs.Facts.{FactsView, with_identity_matches, with_other_party};
ghost use Rattle.mmtel_rules.specs.Identities.{has_identity, identity_holds};
ghost use Rattle.mmtel_rules.specs.Rules.{allows, arrival, rule_holds};
ghost use Rattle.mmtel_barring.specs.Barring.{incoming_refusal, outgoing_bar, rules_of};
ghost use Rattle.mmtel_barring.specs.declared.bars.Refusal.TheVariants.{Anonymous};
ghost use Rattle.mmtel_rules.specs.declared.values.Identities2.{Identities2};
ghost use Rattle.mmtel_sheet_values.specs.declared.values.BarPart.{BarPart};
ghost use Rattle.mmtel_sheet_values.specs.declared.values.Rule.{Rule};
ghost use Rattle.mmtel_sheet_values.specs.declared.values.Who.{Who};

use mmtel_rules::theorems as rules;
use mmtel_rules::theorems::{bar_depends_on_matches, rule_order_bars_the_same};

/// Two callers for which the identity parts of the rules have the same truth values, and of whom both or neither have an identity, are refused in the same way.
pub fn incoming_depends_on_matches()
    ensures same { (asks asks2 : Who → Bool) (k : FactsView) (part : Option BarPart) → MatchEqually asks asks2 (identity_parts (rules_of part)) →
        incoming_refusal (with_identity_matches k asks) part ≡ incoming_refusal (with_identity_matches k asks2) part }
    ensures callers { (i j : Identities2) (k : FactsView) (part : Option BarPart) → MatchEqually (identity_holds i) (identity_holds j) (identity_parts (rules_of part)) →
        has_identity i ≡ has_identity j → incoming_refusal (with_other_party i k) part ≡ incoming_refusal (with_other_party j k) part }
{
    bar_depends_on_matches();
}

/// Two targets for which the identity parts of the rules have the same truth values are barred in the same way.
pub fn outgoing_depends_on_matches()
    ensures same { (asks asks2 : Who → Bool) (k : FactsView) (part : Option BarPart) → MatchEqually asks asks2 (identity_parts (rules_of part)) →
        outgoing_bar (with_identity_matches k asks) part ≡ outgoing_bar (with_identity_matches k asks2) part }
{
    bar_depends_on_matches();
}

/// A caller that has no identity, or hides none, is never rejected as anonymous, whatever the settings of the user.
pub fn only_who_hides_is_anonymous()
    ensures nobody { (k : FactsView) (part : Option BarPart) → k.has_identity ≡ false → incoming_refusal k part ≢ Some Anonymous }
    ensures shown { (k : FactsView) (part : Option BarPart) → k.restricted ≡ false → incoming_refusal k part ≢ Some Anonymous }
    ensures unasked { (k : FactsView) (part : BarPart) → part.reject_anonymous ≡ false → incoming_refusal k (Some part) ≢ Some Anonymous }
{}

/// A caller that hides its identity from a user who rejects that is refused as anonymous, whatever the rules are, including those that allow it.
pub fn anonymous_comes_first()
    ensures refused { (k : FactsView) (part : BarPart) → part.reject_anonymous ≡ true → k.restricted ≡ true → k.has_identity ≡ true →
        incoming_refusal k (Some part) ≡ Some Anonymous }
{}

/// A rule that holds as the call arrives and allows it keeps it from being barred, whatever its place among the rules.
pub fn allowing_rule_wins()
    ensures outgoing { (k : FactsView) (front back : List Rule) (r : Rule) (reject : Bool) → allows r.action ≡ true → rule_holds k arrival r ≡ true →
        outgoing_bar k (Some (record { rules = front ++ r ∷ back; reject_anonymous = reject })) ≡ None }
    ensures incoming { (k : FactsView) (front back : List Rule) (r : Rule) → allows r.action ≡ true → rule_holds k arrival r ≡ true →
        incoming_refusal k (Some (record { rules = front ++ r ∷ back; reject_anonymous = false })) ≡ None }
{
    rules::allowing_rule_wins();
}

/// Whether a call is barred or refused does not depend on the order of the rules.
pub fn rule_order_refuses_the_same()
    ensures outgoing { (k : FactsView) (rules other : List Rule) (reject : Bool) → IsPermutation rules other →
        is_some (outgoing_bar k (Some (record { rules = rules; reject_anonymous = reject })))
        ≡ is_some (outgoing_bar k (Some (record { rules = other; reject_anonymous = reject }))) }
    ensures incoming { (k : FactsView) (rules other : List Rule) (reject : Bool) → IsPermutation rules other →
        is_some (incoming_refusal k (Some (record { rules = rules; reject_anonymous = reject })))
        ≡ is_some (incoming_refusal k (Some (record { rules = other; reject_anonymous = reject }))) }
{
    rule_order_bars_the_same();
}
