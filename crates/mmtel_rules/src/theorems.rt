//! Theorems about the definitions that contracts cite: each is the contract of a function that does nothing.
ghost use Rattle.std.specs.Prelude.{◌≡◌, ◌⊎◌, ℕ, pos, ◌≤ℤ◌, ◌<ℤ◌, Bool, true, false, List, ◌∷◌, ◌++◌, Some, None, IfSome, is_some, option_to_list};
ghost use Rattle.std.specs.List.{list_any};
ghost use Rattle.std.specs.List.Sorted.{IsPermutation};
ghost use Rattle.mmtel_rules.specs.IdentityParts.{MatchEqually, identity_parts};
ghost use Rattle.mmtel_rules.specs.Facts.{FactsView, with_identity_matches};
ghost use Rattle.mmtel_rules.specs.Conditions.{condition_holds};
ghost use Rattle.mmtel_rules.specs.Identities.{has_identity, identity_holds};
ghost use Rattle.mmtel_rules.specs.Rules.{allows, arrival, barred_by, first_that_holds, is_barred, IsLeast, rule_holds};
ghost use Rattle.mmtel_rules.specs.declared.values.Identities2.{Identities2};
ghost use Rattle.mmtel_rules.specs.declared.values.When.{When};
ghost use Rattle.mmtel_sheet_values.specs.declared.values.Condition.{Condition};
ghost use Rattle.mmtel_sheet_values.specs.declared.values.EventWord.TheVariants.{NotRegistered};
ghost use Rattle.mmtel_sheet_values.specs.declared.values.Rule.{Rule};
ghost use Rattle.mmtel_sheet_values.specs.declared.values.Who.{Who};
ghost use Rattle.mmtel_sheet_values.specs.declared.values.Window.{Window};

/// A condition holds for both of two callers, or for neither, where its identity part has the same truth value for both.
pub fn condition_depends_on_matches()
    ensures same { (asks asks2 : Who → Bool) (k : FactsView) (when : When) (c : Condition) → MatchEqually asks asks2 (option_to_list c.identity) →
        condition_holds (with_identity_matches k asks) when c ≡ condition_holds (with_identity_matches k asks2) when c }
{}

/// The same rule is the first that holds for two callers for which the identity parts of the rules have the same truth values.
pub fn first_rule_depends_on_matches()
    ensures same { (asks asks2 : Who → Bool) (k : FactsView) (when : When) (rules : List Rule) → MatchEqually asks asks2 (identity_parts rules) →
        first_that_holds (with_identity_matches k asks) when rules ≡ first_that_holds (with_identity_matches k asks2) when rules }
{}

/// The same rule bars two callers, or none does, for which the identity parts of the rules have the same truth values.
pub fn bar_depends_on_matches()
    ensures same { (asks asks2 : Who → Bool) (k : FactsView) (rules : List Rule) → MatchEqually asks asks2 (identity_parts rules) →
        barred_by (with_identity_matches k asks) rules ≡ barred_by (with_identity_matches k asks2) rules }
{}

/// No identity part is true of a party without an identity.
pub fn nobody_is_meant()
    ensures no { (i : Identities2) (who : Who) → has_identity i ≡ false → identity_holds i who ≡ false }
{}

/// The returned rule holds, and none before it does; None is returned exactly where none holds.
pub fn least_rule_is_found()
    ensures least { (k : FactsView) (when : When) (rules : List Rule) → IfSome (first_that_holds k when rules) (IsLeast (rule_holds k when) rules) }
    ensures some { (k : FactsView) (when : When) (rules : List Rule) → is_some (first_that_holds k when rules) ≡ list_any (rule_holds k when) rules }
{}

/// A call is barred exactly where some rule holds as it arrives, and none that holds then allows it; the rule that is returned is the first that holds.
pub fn barred_where_no_rule_allows()
    ensures barred { (k : FactsView) (rules : List Rule) → is_some (barred_by k rules) ≡ is_barred k rules }
    ensures least { (k : FactsView) (rules : List Rule) → IfSome (barred_by k rules) (IsLeast (rule_holds k arrival) rules) }
{}

/// A rule that holds as the call arrives and allows it lets it through, whatever its place among the rules.
pub fn allowing_rule_wins()
    ensures through { (k : FactsView) (front back : List Rule) (r : Rule) → allows r.action ≡ true → rule_holds k arrival r ≡ true → barred_by k (front ++ r ∷ back) ≡ None }
{}

/// Whether a call is barred does not depend on the order of the rules.
pub fn rule_order_bars_the_same()
    ensures same { (k : FactsView) (rules other : List Rule) → IsPermutation rules other → is_some (barred_by k rules) ≡ is_some (barred_by k other) }
{}

/// A condition holds at no moment outside its window: none at its end or after it, and none before its beginning.
pub fn window_is_kept()
    ensures passed { (k : FactsView) (when : When) (c : Condition) (w : Window) → c.window ≡ Some w → w.until ≤ℤ pos k.now → condition_holds k when c ≡ false }
    ensures to_come { (k : FactsView) (when : When) (c : Condition) (w : Window) → c.window ≡ Some w → pos k.now <ℤ w.from → condition_holds k when c ≡ false }
{}

/// A condition on users who are not registered never bars a call, whoever makes it.
pub fn not_registered_bars_nobody()
    ensures never { (k : FactsView) (c : Condition) → c.event ≡ Some NotRegistered → condition_holds k arrival c ≡ false }
{}
