//! Laws of the analysis, and its values on small programs.
ghost use Rattle.std.specs.Prelude.{◌≡◌, ℕ, Bool, true, false, [], ◌∷◌, ◌++◌, ◌<◌, ◌≤◌, None, Some, option_map, List};
ghost use Rattle.std.specs.Prelude.{length};
ghost use Rattle.std.specs.Prelude.{Contains};
ghost use Rattle.std.specs.List.{list_any};
ghost use Rattle.std.specs.FinSet as set;
ghost use Rattle.racer_base.specs.declared.ids.MethodId.{MethodId};
ghost use Rattle.racer_base.specs.declared.ids.Touch.TheVariants.{Read, Write};
ghost use Rattle.access_paths.specs.declared.path.Path.{Path};
ghost use Rattle.access_paths.specs.declared.path.Root.TheVariants.{Formal};
ghost use Rattle.access_paths.specs.Paths.{alone, some_path};
ghost use Rattle.access_paths.specs.Order.{path_cmp};
ghost use Rattle.access_paths.specs.Table.{IsTable};
ghost use Rattle.owner_domain.specs.declared.value.Value.TheVariants.{Named, Unnamed};
ghost use Rattle.owner_domain.specs.declared.value.State.{State};
ghost use Rattle.core_code.specs.Calls.{method_at, rank_of};
ghost use Rattle.core_code.specs.Core.{Core, Method};
ghost use Rattle.core_code.specs.Pair.{pair};
ghost use Rattle.core_code.specs.Tree.{Tree};
ghost use Rattle.access_domain.specs.declared.access.Access.{Access};
ghost use Rattle.access_domain.specs.declared.numbered.NumberedAccess.{NumberedAccess};
ghost use Rattle.access_domain.specs.declared.summary.Outcome.TheVariants.{Summary as Held};
ghost use Rattle.access_domain.specs.Findings.{Findings, Whole};
ghost use Rattle.access_domain.specs.Flow.{flow};
ghost use Rattle.access_domain.specs.FlowContext.{FlowContext, given_of};
ghost use Rattle.access_domain.specs.Numbered.{read_access, read_accesses, same_numbered_key, AreNumbered};
ghost use Rattle.access_domain.specs.Operations.{Effects};
ghost use Rattle.access_domain.specs.Origins.{HasOrigin};
ghost use Rattle.access_domain.specs.Records.{different_paths, first_of_keys, same_key};
ghost use Rattle.access_domain.specs.Outcomes.{outcome_among};
ghost use Rattle.access_domain.specs.Summaries.{outcome_of, outcomes_of, known_of, known_of_callees, effects_of};
ghost use Rattle.access_domain.specs.Examples.{mix, join, statics, throws, field, method, class, this_path};
ghost use Rattle.access_domain.specs.Examples.{formal_path};
ghost use Rattle.access_domain.specs.Examples.{access, access_below};

/// A record whose path is a number has the key of one of some others exactly where what it is in a table has the key of
/// what one of them is: so records that are added by their numbers are the first of each key.
pub fn numbers_keep_keys()
    ensures { (table : List Path) (records : List NumberedAccess) (a : NumberedAccess) → IsTable table →
        AreNumbered table records → a.path < length table →
        list_any (λ r. same_key r (read_access table a)) (read_accesses table records) ≡
        list_any (λ r. same_numbered_key r a) records }
{}

/// A write, and two writes under a lock.
pub fn pair_row()
    ensures new { outcome_of pair (method 0) ≡ Some (Held (record {
      accesses = [];
      wobbly = set.from_list [];
      result = Named (this_path []);
    })) }
    ensures put { outcome_of pair (method 1) ≡ Some (Held (record {
      accesses = access Write (this_path (field 0 ∷ [])) false 2 ∷ [];
      wobbly = set.from_list (this_path (field 0 ∷ []) ∷ []);
      result = Unnamed;
    })) }
    ensures both { outcome_of pair (method 2) ≡ Some (Held (record {
      accesses = access Write (this_path (field 0 ∷ [])) true 3 ∷ access Write (this_path (field 1 ∷ [])) true 7 ∷ [];
      wobbly = set.from_list (this_path (field 0 ∷ []) ∷ this_path (field 1 ∷ []) ∷ []);
      result = Unnamed;
    })) }
{}

/// A join loses both names: the first parameter is set on one side alone.
pub fn pick_row()
    ensures { outcome_of mix (method 0) ≡ Some (Held (record {
      accesses =
          access Read (this_path (field 4 ∷ [])) false 1 ∷ access Write (some_path (class 0) (field 0)) false 8 ∷ [];
      wobbly = set.from_list (alone (Formal 1) ∷ alone (Formal 0) ∷ []);
      result = Unnamed;
    })) }
{}

/// The caller's records: its own, those of its callee with their indices, and its own again where their keys are new.
pub fn run_row()
    ensures { option_map (λ (e : Effects). first_of_keys e.records) (effects_of mix (method 1)) ≡ Some (
        access Read (this_path (field 2 ∷ [])) false 2
        ∷ access Read (this_path (field 3 ∷ [])) false 4
        ∷ access_below Read (this_path (field 4 ∷ [])) 5 0
        ∷ access_below Write (some_path (class 0) (field 0)) 5 1
        ∷ access Read (this_path (field 2 ∷ field 0 ∷ [])) false 9
        ∷ access Write (this_path (field 2 ∷ field 0 ∷ field 1 ∷ [])) false 11
        ∷ []) }
{}

/// The caller's wobbly paths: those of its callee in its own names, and that of its own store.
pub fn wobbly_row()
    ensures { option_map (λ (e : Effects). different_paths e.wobbly) (effects_of mix (method 1)) ≡ Some (
        this_path (field 3 ∷ []) ∷ this_path (field 2 ∷ []) ∷ this_path (field 2 ∷ field 0 ∷ field 1 ∷ []) ∷ []) }
{}

/// Substitution is not inlining: the two sides of a choice have two names in the callee, though the caller passes one
/// path twice. So each name is lost there, and both are that path here.
pub fn join_row()
    ensures records { option_map (λ (e : Effects). first_of_keys e.records) (effects_of join (method 1)) ≡ Some (
        access Read (this_path (field 1 ∷ [])) false 2
        ∷ access_below Read (this_path (field 2 ∷ [])) 5 0
        ∷ access_below Write (some_path (class 0) (field 0)) 5 1
        ∷ []) }
    ensures lost { known_of join (method 0) ≡ Some (Whole (record {
      records =
          access Read (this_path (field 2 ∷ [])) false 1 ∷ access Write (some_path (class 0) (field 0)) false 9 ∷ [];
      wobbly = alone (Formal 0) ∷ alone (Formal 1) ∷ [];
      result = Unnamed;
    })) }
    ensures wobbly { option_map (λ (e : Effects). different_paths e.wobbly) (effects_of join (method 1)) ≡
        Some (this_path (field 1 ∷ []) ∷ []) }
{}

/// A static callee's first actual is that of parameter 0. A record and a wobbly path of a named actual get its name,
/// those
/// of an owned one fall away, and a record of an unknown one is that of some object.
pub fn static_row()
    ensures set { known_of statics (method 0) ≡ Some (Whole (record {
      records = access Write (formal_path (field 0 ∷ [])) false 2 ∷ [];
      wobbly = formal_path (field 0 ∷ []) ∷ [];
      result = Unnamed;
    })) }
    ensures go { known_of statics (method 1) ≡ Some (Whole (record {
      records =
          access Read (this_path (field 1 ∷ [])) false 1
          ∷ access_below Write (this_path (field 1 ∷ field 0 ∷ [])) 2 0
          ∷ access_below Write (some_path (class 0) (field 0)) 8 0
          ∷ [];
      wobbly = this_path (field 1 ∷ field 0 ∷ []) ∷ [];
      result = Unnamed;
    })) }
{}

/// Behind a throw there is no state, so that what follows gives nothing, and a side that throws takes no part where two
/// ways meet. A throw returns no value.
pub fn throwing_row()
    ensures stopped { outcome_of throws (method 0) ≡ Some (Held (record {
      accesses = access Write (this_path (field 0 ∷ [])) false 2 ∷ [];
      wobbly = set.from_list (this_path (field 0 ∷ []) ∷ []);
      result = Unnamed;
    })) }
    ensures no_state { option_map (λ (e : Effects). e.next) (effects_of throws (method 0)) ≡ Some None }
    ensures no_result { option_map (λ (e : Effects). e.result) (effects_of throws (method 0)) ≡ Some None }
    ensures past { outcome_of throws (method 1) ≡ Some (Held (record {
      accesses = access Write (this_path (field 0 ∷ [])) false 7 ∷ [];
      wobbly = set.from_list (this_path (field 0 ∷ []) ∷ []);
      result = Named (this_path []);
    })) }
{}

/// What the flow of a method is given of a method of a smaller rank is what is known of that; of any other, nothing.
pub fn callees_are_known()
    ensures smaller { (core : Core) (m n : MethodId) → rank_of core n < rank_of core m →
        known_of_callees core m n ≡ known_of core n }
    ensures other { (core : Core) (m n : MethodId) → rank_of core m ≤ rank_of core n →
        known_of_callees core m n ≡ None }
{}

/// What the outcomes of a program have of a method is its outcome.
pub fn outcomes_are_those_of_methods()
    ensures { (core : Core) (m : MethodId) → outcome_among (outcomes_of core) m ≡ outcome_of core m }
{}

/// The set of a list of paths is that of its different ones.
pub fn different_paths_suffice()
    ensures { (paths : List Path) → set.from_list {R = path_cmp} (different_paths paths) ≡ set.from_list paths }
{}

/// A record that is put at the end is among the firsts of each key exactly where no earlier one has its key.
pub fn later_records_of_a_key_fall_away()
    ensures new { (rs : List Access) (a : Access) → list_any (λ r. same_key r a) rs ≡ false →
        first_of_keys (rs ++ a ∷ []) ≡ first_of_keys rs ++ a ∷ [] }
    ensures old { (rs : List Access) (a : Access) → list_any (λ r. same_key r a) rs ≡ true →
        first_of_keys (rs ++ a ∷ []) ≡ first_of_keys rs }
{}

/// Each record is that of a Get or a Put at its site, or of a call at its site: then it is one of the callee's, by its
/// index there, with its path put into the caller's values.
pub fn records_have_origins()
    ensures code { (g : FlowContext) (code : Tree) (locked : Bool) (s : State) (a : Access) →
        Contains (flow g code locked s).records a → HasOrigin g code a }
    ensures method { (core : Core) (m : MethodId) (method : Method) (found : Findings) (a : Access) →
        method_at core m ≡ Some method → known_of core m ≡ Some (Whole found) → Contains found.records a →
        HasOrigin (given_of core (known_of core) method.main) method.code a }
{}
