//! Examples of the definitions, computed.
ghost use Rattle.std.specs.Prelude.{◌≡◌, ◌∷◌, ◌++◌, [], codes, Ok, Err, Some, None, true, false};
ghost use Rattle.office_base.specs.declared.reading.Reading.TheVariants.{Unreadable, Nonconforming, Priced};
ghost use Rattle.office_base.specs.declared.records.AwardState.TheVariants.{Failed};
ghost use Rattle.office_base.specs.declared.records.EnvelopeState.TheVariants.{Sealed, Withdrawn};
ghost use Rattle.office_base.specs.declared.records.LotState.TheVariants.{Undecided, Cancelled};
ghost use Rattle.tender_papers.specs.Budget.{budget_of};
ghost use Rattle.tender_papers.specs.Evaluation.{evaluation_end, evaluation_head, findings_text};
ghost use Rattle.tender_papers.specs.Files.{csv_records};
ghost use Rattle.tender_papers.specs.Ledger.{ledger_text};
ghost use Rattle.tender_papers.specs.Listing.{listing_text};
ghost use Rattle.tender_papers.specs.Minutes.{minutes_text};
ghost use Rattle.tender_papers.specs.Register.{register_text};
ghost use Rattle.tender_papers.specs.WorkedPapers.{worked_answer, worked_award, worked_envelope, worked_finding, worked_lot, worked_notice, worked_ledger_row, worked_reading, worked_reading_of_two, worked_row, worked_tender};

/// Examples of budget files.
pub fn worked_budgets()
    ensures two_rows { budget_of (csv_records (codes "line,kind,amount,title\n1000,add,1000,Roads\n2000,add,50,Parks\n"))
        ≡ Ok (worked_row (codes "1000") 999 (codes "Roads") ∷ worked_row (codes "2000") 49 (codes "Parks") ∷ []) }
    ensures third_row_faulty { budget_of (csv_records (codes "line,kind,amount,title\r\n1,add,1,A\r\n2,cut,1,B\r\n3,add,0,C\r\n")) ≡ Err 4 }
    ensures no_head { budget_of (csv_records []) ≡ Err 1 }
{}

/// Examples of tenders for three of the item I1. In the last clause the lot also asks for one of I2.
pub fn worked_tenders()
    ensures corrected_sums { worked_reading (codes "item,quantity,unit,total\nI1,3,10,40\nTOTAL,,,40\n") ≡ Priced 40 30 2 }
    ensures with_mark_and_returns { worked_reading (239 ∷ 187 ∷ 191 ∷ codes "item,quantity,unit,total\r\nI1,3,10,40\r\nTOTAL,,,40\r\n") ≡ Priced 40 30 2 }
    ensures leading_zeros { worked_reading (codes "item,quantity,unit,total\nI1,3,00010,40\nTOTAL,,,40\n") ≡ Priced 40 30 2 }
    ensures right_sums { worked_reading (codes "item,quantity,unit,total\nI1,3,10,30\nTOTAL,,,30\n") ≡ Priced 30 30 0 }
    ensures wrong_total { worked_reading (codes "item,quantity,unit,total\nI1,3,10,30\nTOTAL,,,31\n") ≡ Priced 31 30 1 }
    ensures other_quantity { worked_reading (codes "item,quantity,unit,total\nI1,4,10,40\nTOTAL,,,40\n") ≡ Nonconforming }
    ensures no_items { worked_reading (codes "item,quantity,unit,total\nTOTAL,,,0\n") ≡ Nonconforming }
    ensures dear_unit { worked_reading (codes "item,quantity,unit,total\nI1,3,1000000001,40\nTOTAL,,,40\n") ≡ Nonconforming }
    ensures no_head { worked_reading (codes "I1,3,10,40\nTOTAL,,,40\n") ≡ Unreadable }
    ensures head_alone { worked_reading (codes "item,quantity,unit,total\n") ≡ Unreadable }
    ensures closed_twice { worked_reading (codes "item,quantity,unit,total\nTOTAL,,,0\nTOTAL,,,0\n") ≡ Unreadable }
    ensures other_order { worked_reading_of_two (codes "item,quantity,unit,total\nI2,1,5,5\nI1,3,10,30\nTOTAL,,,35\n") ≡ Nonconforming }
{}

/// An example of each kind of text.
pub fn worked_printed_texts()
    ensures ledger { ledger_text (worked_ledger_row ∷ [])
        ≡ codes "LEDGER\nline\tappropriation\tfree\treserved\tcontracted\tpaid\n1000\t1000\t400\t300\t200\t100\n" }
    ensures register { register_text (codes "N1") (worked_envelope 1 Sealed ∷ worked_envelope 2 Withdrawn ∷ [])
        ≡ codes "REGISTER\tN1\n1\tL1\t2026-02-02T10:00:00Z\t3\tsealed\n2\tL1\t2026-02-02T10:00:00Z\t3\twithdrawn\n" }
    ensures minutes { minutes_text worked_notice 1772366401 (worked_lot (codes "L1") (codes "North") ∷ worked_lot (codes "L2") (codes "South") ∷ [])
        (worked_tender 1 (codes "L1") (Priced 40 30 2) ∷ worked_tender 2 (codes "L2") Nonconforming ∷ worked_tender 3 (codes "L1") Unreadable ∷ [])
        ≡ codes "MINUTES\tN1\tRoad repair\ndeadline\t2026-03-01T12:00:00Z\nopened\t2026-03-01T12:00:01Z\n"
        ++ codes "lot\tL1\tNorth\ntender\t1\tT1\tAlpha\tHigh Street 1\tpriced\t40\t30\t2\ntender\t3\tT1\tAlpha\tHigh Street 1\tunreadable\n"
        ++ codes "lot\tL2\tSouth\ntender\t2\tT1\tAlpha\tHigh Street 1\tnonconforming\nEND\n" }
    ensures evaluation { evaluation_head (codes "N1")
        ++ findings_text (codes "L1") Undecided
        (worked_answer 1 500 10 (Some 70000) true false ∷ worked_answer 2 750 35 None false true ∷ worked_finding 3 Unreadable ∷ []) (worked_award 1 2 750 Failed ∷ [])
        ++ findings_text (codes "L2") Cancelled (worked_finding 4 (Priced 300 300 0) ∷ []) [] ++ evaluation_end
        ≡ codes "EVALUATION\tN1\nlot\tL1\tundecided\ntender\t1\tT1\tpriced\t500\tresponsive\t10\t70000\tadmissible\n"
        ++ codes "tender\t2\tT1\tpriced\t750\tresponsive\t35\t-\tfailed\ntender\t3\tT1\tunreadable\naward\t1\t2\t750\tfailed\n"
        ++ codes "lot\tL2\tcancelled\ntender\t4\tT1\tpriced\t300\t-\t-\t-\t-\nEND\n" }
    ensures listing { listing_text (worked_notice ∷ [])
        ≡ codes "N1\topened\t2026-01-05T09:00:00Z\t2026-03-01T12:00:00Z\t2026-03-01T12:00:01Z\t0\t1\tRoad repair\n" }
{}
