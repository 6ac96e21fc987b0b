//! Worked examples of the definitions: each clause computes. The functions do nothing.

ghost use Rattle.std.specs.Prelude.{◌≡◌, [], ◌∷◌, true, false, codes};
ghost use Rattle.ocds_merge.specs.Examples.{is_text_of_id_list, object_run_texts, column_texts, id_list_run_texts, item_texts, id_texts, merge_text, date_order_texts, body_text, headed_text, compiled_text};

/// Id lists, runs, columns, items and ids, from `specs/Identified.antt` and `specs/Merge.antt`.
pub fn worked_columns()
    ensures id_list { is_text_of_id_list (codes "[{\"id\":\"A\"},{\"id\":\"B\"}]") ≡ true }
    ensures empty_array_is_none { is_text_of_id_list (codes "[]") ≡ false }
    ensures number_ids_make_none { is_text_of_id_list (codes "[{\"id\":\"A\"},{\"id\":7}]") ≡ false }
    ensures texts_make_none { is_text_of_id_list (codes "[\"tender\"]") ≡ false }
    // The value 5 ends the run.
    ensures run_of_objects { object_run_texts (codes "{\"a\":1}" ∷ codes "5" ∷ codes "{\"b\":2}"
        ∷ codes "{\"c\":3}" ∷ [])
        ≡ codes "{\"c\":3}" ∷ codes "{\"b\":2}" ∷ [] }
    // A release without the place gives no value; one that has null there gives null.
    ensures column_of_a_name { column_texts (codes "b") (codes "{\"b\":1}" ∷ codes "{\"c\":2}"
        ∷ codes "{\"b\":null}" ∷ codes "{\"b\":3}" ∷ [])
        ≡ codes "3" ∷ codes "null" ∷ codes "1" ∷ [] }
    // The array [1] is no id list, and ends the run.
    ensures run_of_id_lists { id_list_run_texts (codes "[{\"id\":\"A\"}]" ∷ codes "[1]"
        ∷ codes "[{\"id\":\"B\"}]" ∷ codes "[{\"id\":\"C\"}]" ∷ [])
        ≡ codes "[{\"id\":\"C\"}]" ∷ codes "[{\"id\":\"B\"}]" ∷ [] }
    ensures items_of_a_run { item_texts (codes "[{\"id\":\"A\"},{\"id\":\"B\"}]"
        ∷ codes "[{\"id\":\"A\",\"v\":1}]" ∷ [])
        ≡ codes "{\"id\":\"A\",\"v\":1}" ∷ codes "{\"id\":\"B\"}" ∷ codes "{\"id\":\"A\"}" ∷ [] }
    ensures ids_by_first_appearance { id_texts (codes "[{\"id\":\"B\"},{\"id\":\"A\"}]"
        ∷ codes "[{\"id\":\"A\"},{\"id\":\"C\"}]" ∷ [])
        ≡ codes "B" ∷ codes "A" ∷ codes "C" ∷ [] }
{}

/// The merge of a column, from `specs/Merge.antt`.
pub fn worked_merges()
    ensures no_values { merge_text [] ≡ codes "null" }
    ensures last_literal { merge_text (codes "{\"a\":1}" ∷ codes "[1]" ∷ codes "\"x\"" ∷ [])
        ≡ codes "\"x\"" }
    ensures last_plain_array { merge_text (codes "[\"a\",\"b\"]" ∷ codes "[\"c\",null]" ∷ [])
        ≡ codes "[\"c\",null]" }
    ensures null_member { merge_text (codes "{\"a\":null}" ∷ []) ≡ codes "{}" }
    ensures by_name { merge_text (codes "{\"a\":{\"b\":1}}"
        ∷ codes "{\"a\":{\"b\":null,\"c\":2}}" ∷ [])
        ≡ codes "{\"a\":{\"c\":2}}" }
    ensures by_id { merge_text (codes "{\"p\":[{\"id\":\"A\",\"roles\":[\"tenderer\"]}]}"
        ∷ codes "{\"p\":[{\"id\":\"B\"}]}"
        ∷ codes "{\"p\":[{\"id\":\"A\",\"roles\":[\"tenderer\",\"supplier\"]}]}" ∷ [])
        ≡ codes "{\"p\":[{\"id\":\"A\",\"roles\":[\"tenderer\",\"supplier\"]},{\"id\":\"B\"}]}" }
    // The null ends the run, so that A is new afterwards.
    ensures by_id_after_null { merge_text (codes "{\"p\":[{\"id\":\"A\",\"roles\":[\"tenderer\"]}]}"
        ∷ codes "{\"p\":null}" ∷ codes "{\"p\":[{\"id\":\"B\"}]}"
        ∷ codes "{\"p\":[{\"id\":\"A\",\"roles\":[\"tenderer\",\"supplier\"]}]}" ∷ [])
        ≡ codes "{\"p\":[{\"id\":\"B\"},{\"id\":\"A\",\"roles\":[\"tenderer\",\"supplier\"]}]}" }
    ensures by_id_after_another_kind { merge_text (codes "{\"a\":[{\"id\":\"x\",\"v\":1}]}"
        ∷ codes "{\"a\":[1]}" ∷ codes "{\"a\":[{\"id\":\"y\"}]}" ∷ [])
        ≡ codes "{\"a\":[{\"id\":\"y\"}]}" }
    ensures same_id_twice { merge_text (codes "[{\"id\":\"A\",\"v\":1,\"w\":1},{\"id\":\"B\"},{\"id\":\"A\",\"v\":2}]" ∷ [])
        ≡ codes "[{\"id\":\"A\",\"v\":2,\"w\":1},{\"id\":\"B\"}]" }
{}

/// The compiled release, from `specs/Compile.antt`.
pub fn worked_compilations()
    ensures order { date_order_texts (codes "{\"date\":\"2026-01-06\",\"n\":1}"
        ∷ codes "{\"date\":\"2026-01-05\",\"n\":2}" ∷ codes "{\"date\":\"2026-01-06\",\"n\":3}" ∷ [])
        ≡ codes "{\"date\":\"2026-01-05\",\"n\":2}" ∷ codes "{\"date\":\"2026-01-06\",\"n\":1}"
        ∷ codes "{\"date\":\"2026-01-06\",\"n\":3}" ∷ [] }
    ensures body { body_text (codes "{\"date\":\"2026-01-05\",\"id\":\"o-1\",\"ocid\":\"o\",\"tag\":[\"tender\"],\"tender\":{\"id\":\"N1\"}}")
        ≡ codes "{\"ocid\":\"o\",\"tender\":{\"id\":\"N1\"}}" }
    ensures head { headed_text (codes "o") (codes "2026-01-05") (codes "{\"ocid\":\"o\"}")
        ≡ codes "{\"date\":\"2026-01-05\",\"id\":\"o-2026-01-05\",\"ocid\":\"o\",\"tag\":[\"compiled\"]}" }
    ensures compiled { compiled_text (codes "ocds-a1b2c3-N1")
        (codes "{\"date\":\"2026-01-05T09:00:00Z\",\"id\":\"ocds-a1b2c3-N1-0001\",\"ocid\":\"ocds-a1b2c3-N1\",\"tag\":[\"tender\"],\"tender\":{\"eligibilityCriteria\":\"any\",\"id\":\"N1\"}}"
        ∷ codes "{\"date\":\"2026-01-06T09:00:00Z\",\"id\":\"ocds-a1b2c3-N1-0002\",\"ocid\":\"ocds-a1b2c3-N1\",\"tag\":[\"tenderUpdate\"],\"tender\":{\"eligibilityCriteria\":null}}" ∷ [])
        ≡ codes "{\"date\":\"2026-01-06T09:00:00Z\",\"id\":\"ocds-a1b2c3-N1-2026-01-06T09:00:00Z\",\"ocid\":\"ocds-a1b2c3-N1\",\"tag\":[\"compiled\"],\"tender\":{\"id\":\"N1\"}}" }
{}
