//! Laws of the definitions in `specs/`, for proofs in the crates above. Each function has an empty body, and its contract is the law.

ghost use Rattle.std.specs.Prelude.{◌≡◌, ℕ, List, [], ◌∷◌, ◌++◌, filter, map, reverse, Bool, true, false, None, Some, All};
ghost use Rattle.serde_json.specs.Data.{Data, Num, Items, Members, null, boolean, number, string, array, object};
ghost use Rattle.serde_json.specs.Find.{get};
ghost use Rattle.serde_json.specs.View.{items_of};
ghost use Rattle.ocds_merge.specs.Identified.{is_id_list};
ghost use Rattle.ocds_merge.specs.Merge.{merge_of, merge_or_null, merge_newest_first, column_at, object_run, id_list_run, items_in, merge_items};
ghost use Rattle.ocds_merge.specs.Compile.{body_of, date_order, last_date, with_head, compiled_release};
ghost use Rattle.ocds_merge.specs.Stored.{IsStorable};
ghost use Rattle.ocds_merge.specs.Laws.{IsProper, IsInDateOrder, is_dated};

/// The rule of the merge, sentence by sentence, at any depth: the last value of a column decides the kind.
///
/// If it is an object, the merge has at each name the merge of the name's column in the run of objects. If it is an id list, each item is the merge of the
/// items with its id in the run of id lists.
pub fn last_value_decides()
    ensures null_is_absent { (vs : List Data) → merge_of (vs ++ null ∷ []) ≡ None }
    ensures boolean_stands { (vs : List Data) (b : Bool)
        → merge_of (vs ++ boolean b ∷ []) ≡ Some (boolean b) }
    ensures number_stands { (vs : List Data) (n : Num)
        → merge_of (vs ++ number n ∷ []) ≡ Some (number n) }
    ensures text_stands { (vs : List Data) (s : List ℕ)
        → merge_of (vs ++ string s ∷ []) ≡ Some (string s) }
    ensures plain_array_stands { (vs : List Data) (ds : Items) → is_id_list ds ≡ false
        → merge_of (vs ++ array ds ∷ []) ≡ Some (array ds) }
    ensures objects_merge_by_name { (vs : List Data) (ms : Members) (name : List ℕ)
        → get name (merge_or_null (vs ++ object ms ∷ []))
        ≡ merge_newest_first (column_at name (ms ∷ object_run (reverse vs))) }
    ensures id_lists_merge_by_id { (vs : List Data) (ds : Items) → is_id_list ds ≡ true
        → merge_of (vs ++ array ds ∷ [])
        ≡ Some (array (items_of
        (merge_items merge_newest_first (items_in (ds ∷ id_list_run (reverse vs)))))) }
{}

/// The merge of some values and one more is the merge of two values: the merge of the former, and the new one. So a tree that is kept and changed release by
/// release is the merge of all of them.
pub fn merge_carries_on()
    ensures alone { (vs : List Data) → merge_of (merge_or_null vs ∷ []) ≡ merge_of vs }
    ensures one_more { (vs : List Data) (v : Data) → IsProper v
        → merge_of (vs ++ v ∷ []) ≡ merge_of (merge_or_null vs ∷ v ∷ []) }
{}

/// The order of the releases is by date, and releases that are in order stay as they are. Then the compiled release is the merge of their bodies with its
/// head, even if the merge was kept and changed release by release.
pub fn dates_order_releases()
    ensures ordered { (releases : List Data) → IsInDateOrder (date_order releases) }
    ensures same_dates_stay { (releases : List Data) (date : List ℕ)
        → filter (is_dated date) (date_order releases) ≡ filter (is_dated date) releases }
    ensures ordered_stays { (releases : List Data) → IsInDateOrder releases
        → date_order releases ≡ releases }
    ensures kept_tree_compiles { (ocid : List ℕ) (releases : List Data) → IsInDateOrder releases
        → compiled_release ocid releases
        ≡ with_head ocid (last_date releases) (merge_or_null (map body_of releases)) }
{}

/// A merge, and a release without its head, can be stored as a text and read back if the values can: no float, and at most 127 levels.
pub fn merge_stays_storable()
    ensures merge { (vs : List Data) → All IsStorable vs → IsStorable (merge_or_null vs) }
    ensures body { (release : Data) → IsStorable release → IsStorable (body_of release) }
{}
