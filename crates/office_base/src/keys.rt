//! The key of each kind of record.
ghost use Rattle.std.proofs.Common.{rules};

use crate::records::{
    AwardRow, BatchRow, CompiledRow, ContractRow, EntryRow, EnvelopeRow, LateRow, LineRow, LotRow,
    NoticeRow, PerformanceRow, ReleaseRow, SealRow, SecurityRow, TendererRow,
};
use crate::row::Row;
use office_values::id::Id;

impl Row for LineRow {
    type Key = Id;

    ghost key_of = { λ r. r.line };

    ghost clone_same = { λ a b h. Prim.search rules };

    fn key(&self) -> Id {
        self.line
    }
}

impl Row for BatchRow {
    type Key = Id;

    ghost key_of = { λ r. r.batch };

    ghost clone_same = { λ a b h. Prim.search rules };

    fn key(&self) -> Id {
        self.batch
    }
}

impl Row for TendererRow {
    type Key = Id;

    ghost key_of = { λ r. r.tenderer };

    ghost clone_same = { λ a b h. Prim.search rules };

    fn key(&self) -> Id {
        self.tenderer
    }
}

impl Row for NoticeRow {
    type Key = Id;

    ghost key_of = { λ r. r.notice };

    ghost clone_same = { λ a b h. Prim.search rules };

    fn key(&self) -> Id {
        self.notice
    }
}

impl Row for LotRow {
    type Key = (Id, Id);

    ghost key_of = { λ r. (r.notice, r.lot) };

    ghost clone_same = { λ a b h. Prim.search rules };

    fn key(&self) -> (Id, Id) {
        (self.notice, self.lot)
    }
}

impl Row for EnvelopeRow {
    type Key = u64;

    ghost key_of = { λ r. r.receipt };

    ghost clone_same = { λ a b h. Prim.search rules };

    fn key(&self) -> u64 {
        self.receipt.get()
    }
}

impl Row for SealRow {
    type Key = u64;

    ghost key_of = { λ r. r.receipt };

    ghost clone_same = { λ a b h. Prim.search rules };

    fn key(&self) -> u64 {
        self.receipt.get()
    }
}

impl Row for SecurityRow {
    type Key = u64;

    ghost key_of = { λ r. r.security };

    ghost clone_same = { λ a b h. Prim.search rules };

    fn key(&self) -> u64 {
        self.security.get()
    }
}

impl Row for AwardRow {
    type Key = u64;

    ghost key_of = { λ r. r.award };

    ghost clone_same = { λ a b h. Prim.search rules };

    fn key(&self) -> u64 {
        self.award.get()
    }
}

impl Row for ContractRow {
    type Key = u64;

    ghost key_of = { λ r. r.contract };

    ghost clone_same = { λ a b h. Prim.search rules };

    fn key(&self) -> u64 {
        self.contract.get()
    }
}

impl Row for EntryRow {
    type Key = (u64, Id);

    ghost key_of = { λ r. (r.contract, r.entry) };

    ghost clone_same = { λ a b h. Prim.search rules };

    fn key(&self) -> (u64, Id) {
        (self.contract.get(), self.entry)
    }
}

impl Row for ReleaseRow {
    type Key = (Id, u64);

    ghost key_of = { λ r. (r.notice, r.seq) };

    ghost clone_same = { λ a b h. Prim.search rules };

    fn key(&self) -> (Id, u64) {
        (self.notice, self.seq.get())
    }
}

impl Row for CompiledRow {
    type Key = Id;

    ghost key_of = { λ r. r.notice };

    ghost clone_same = { λ a b h. Prim.search rules };

    fn key(&self) -> Id {
        self.notice
    }
}

impl Row for LateRow {
    type Key = Id;

    ghost key_of = { λ r. r.notice };

    ghost clone_same = { λ a b h. Prim.search rules };

    fn key(&self) -> Id {
        self.notice
    }
}

impl Row for PerformanceRow {
    type Key = u64;

    ghost key_of = { λ r. r.contract };

    ghost clone_same = { λ a b h. Prim.search rules };

    fn key(&self) -> u64 {
        self.contract.get()
    }
}
