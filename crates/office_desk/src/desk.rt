//! The desk: it plans commands, carries them out, and answers queries.
ghost use Rattle.std.specs.Prelude.{◌≡◌, ◌⊎◌, IfOk, OnOk, IfErr, Some, None, Ok, Err, true, false, List, option_map, IsSome, IsNone};
ghost use Rattle.office_commands.specs.Commands as commands;
ghost use Rattle.office_commands.specs.Queries as queries;
ghost use Rattle.office_commands.specs.Rights.{may, may_look};
ghost use Rattle.office_base.specs.Tables.{Tables, after_puts};
ghost use Rattle.office_base.specs.Faults.{HasRisen};
ghost use Rattle.office_base.specs.Shelves.{Looks, Alters};
ghost use Rattle.office_publications.specs.Keeping.{KeepsReleases};
ghost use Rattle.office_publications.specs.Publishing.{publishing};
ghost use Rattle.office_machine.specs.Machine.{Given, IsRegistered, Reaches};
ghost use Rattle.office_values.specs.declared.settings.Publisher.{Publisher as PublisherOf};
ghost use Rattle.office_plans.specs.Asking.{given};
ghost use Rattle.office_base.specs.Shutting.{TellsShut};
ghost use Rattle.office_desk.specs.Callers.{caller_of, names_no_tenderer};
ghost use Rattle.office_desk.specs.MovedLines.{MovesAddUp};
ghost use Rattle.office_plans.specs.Published.{IsPlan, IsPlanned, TellsRefusal};
ghost use Rattle.office_desk.specs.Steps.{Does, HasShown, IsReplyOrRefusal, IsSeen, Joins, TellsQuery, read_text};

use crate::callers::{clerk_with_key, is_clerk_name, tenderer_named};
use crate::laws::moved_lines;
use crate::moved_lines::moved_lines_add_up;
use crate::queries::look_at;
use office_base::laws::looks_follow;
use office_base::puts::Put;
use office_base::shelf::{Lookups, Shelf, ShelfFault};
use office_base::stored::StoredShelf;
use office_commands::command::{Caller, may, may_look};
use office_commands::commands::Command;
use office_commands::queries::Query;
use office_machine::{fates, laws};
use office_plans::commands::plan_command;
use office_plans::planned::Planned;
use office_publications::laws::keeping;
use office_values::moment::Moment;
use office_values::refusal::Refusal;
use office_values::settings::Settings;
use std::alloc::Global;
use std::marker::Model;
use tender_core::asking::Asking;

/// A desk answers commands and queries from the content of a store.
pub struct Desk<H: Shelf + Drop> {
    alloc: Global,
    settings: Settings,
    shelf: H,
}

// Written by hand, so that a program that drops a desk proves no drop of its parts.
impl<H: Shelf + Drop> Drop for Desk<H> {
    fn drop(self) {
        let Desk {
            alloc: _,
            settings: _,
            shelf: _,
        } = self;
    }
}

impl<H: Shelf + Drop> Model for Desk<H> {
    ghost use Rattle.office_desk.specs.Desks.{DeskOf};

    ghost Value = { DeskOf H };

    ghost view = { λ d. record { shelf = d.shelf; settings = d.settings } };
}

impl<H: Shelf + Drop> Desk<H> {
    /// A desk over this store. Takes no memory.
    pub fn new(alloc: Global, settings: Settings, shelf: H) -> Desk<H>
        ensures { result ≡ record { shelf = shelf; settings = settings } }
    {
        Desk {
            alloc,
            settings,
            shelf,
        }
    }

    /// The store; the desk is used up. Takes no memory.
    pub fn into_shelf(self) -> H
        ensures { result ≡ self.shelf }
    {
        let Desk {
            alloc: _,
            settings: _,
            shelf,
        } = self;
        shelf
    }

    /// The caller, by the name and the key of a request, each of which may be absent. Without both it is the public. With the clerk's key it is the clerk, and
    /// with a registered tenderer's key that tenderer. Anything else is `BadKey`. Only an identifier other than `clerk` is looked up, so only then can the
    /// answer be `Unavailable`.
    pub fn caller(&mut self, name: Option<&[u8]>, key: Option<&[u8]>) -> Result<Caller, Refusal>
        ensures looks { Looks H.meaning self.old.shelf self.new.shelf (λ s.
            (result ≡ caller_of self.old.settings s (option_map (λ x. x.now) name.entry) (option_map (λ x. x.now) key.entry)) ⊎ (result ≡ Err Refusal.Unavailable)) }
        ensures settings { self.new.settings ≡ self.old.settings }
        ensures neither { IsNone name.entry → IsNone key.entry → result ≡ Ok Caller.Public }
        ensures no_key { IsSome name.entry → IsNone key.entry → result ≡ Err Refusal.BadKey }
        ensures no_name { IsNone name.entry → IsSome key.entry → result ≡ Err Refusal.BadKey }
        ensures no_tenderer { names_no_tenderer (option_map (λ x. x.now) name.entry) (option_map (λ x. x.now) key.entry) ≡ true → (s : Tables)
            → result ≡ caller_of self.old.settings s (option_map (λ x. x.now) name.entry) (option_map (λ x. x.now) key.entry) }
        ensures risen { result ≡ Err Refusal.Unavailable → HasRisen (H.meaning.fault_count self.old.shelf) (H.meaning.fault_count self.new.shelf) }
        ensures counted { OnOk result (H.meaning.fault_count self.new.shelf ≡ H.meaning.fault_count self.old.shelf) }
    {
        match name {
            Some(name) => match key {
                Some(key) => {
                    if is_clerk_name(name) {
                        clerk_with_key(&self.settings, key)
                    } else {
                        tenderer_named(&mut self.shelf, name, key)
                    }
                }
                None => Err(Refusal::BadKey),
            },
            None => match key {
                Some(_) => Err(Refusal::BadKey),
                None => Ok(Caller::Public),
            },
        }
    }

    /// The plan of a command, which changes nothing. A command that moves money has a plan only if the lines add up whose money it moves; if one doesn't, the
    /// answer is `Unavailable`. A refused command gets its refusal, or the store has counted another fault. Of an import and a publication only `Exists` is promised
    /// so, because they gather budget lines before other refusals.
    pub fn plan(
        &mut self,
        moment: Moment,
        caller: &Caller,
        command: Command<'_>,
    ) -> Result<Planned, Refusal>
        ensures looks { Looks H.meaning self.old.shelf self.new.shelf (λ s.
            IsPlanned self.old.settings.publisher (given s moment caller.now command.entry) result) }
        ensures moved { H.meaning.honest self.new.shelf → (s : Tables) → H.meaning.holds self.old.shelf s → IfOk result (λ _. MovesAddUp command.entry s) }
        ensures settings { self.new.settings ≡ self.old.settings }
        ensures forbidden { may caller.now (commands.kind_of command.entry) ≡ false → result ≡ Err Refusal.Forbidden }
        ensures tells { TellsRefusal H.meaning self.old.shelf self.new.shelf (λ s. given s moment caller.now command.entry) result }
    {
        looks_follow::<H>();
        moved_lines();
        if !may(caller, command.kind()) {
            return Err(Refusal::Forbidden);
        }
        let asking = Asking { moment, caller };
        let publisher = &self.settings.publisher;
        let shelf = &mut self.shelf;
        let adds_up = moved_lines_add_up(shelf, &command)?;
        let planned = plan_command(self.alloc, shelf, publisher, &asking, command)?;
        if adds_up {
            Ok(planned)
        } else {
            Err(Refusal::Unavailable)
        }
    }

    /// Makes these changes, all of them or none. Nothing is allocated after the changes are made.
    pub fn carry_out(&mut self, puts: Vec<Put>) -> Result<(), ShelfFault>
        ensures alters { Alters H.meaning self.old.shelf self.new.shelf result (after_puts puts.items) }
        ensures settings { self.new.settings ≡ self.old.settings }
        ensures risen { IfErr result (λ _. HasRisen (H.meaning.fault_count self.old.shelf) (H.meaning.fault_count self.new.shelf)) }
    {
        match self.shelf.apply(puts) {
            Ok(()) => Ok(()),
            Err(fault) => Err(fault),
        }
    }

    /// Carries out a plan, all of it or nothing, and returns the reply. Nothing is allocated after the changes are made. `Unavailable` means too little memory
    /// or a fault of the store.
    pub fn commit(&mut self, planned: Planned) -> Result<Vec<u8>, Refusal>
        ensures alters { Alters H.meaning self.old.shelf self.new.shelf result (after_puts planned.puts) }
        ensures settings { self.new.settings ≡ self.old.settings }
        ensures reply { IfOk result (λ reply. reply.items ≡ planned.reply) }
        ensures refused { IfErr result (λ why. why ≡ Refusal.Unavailable) }
        ensures risen { IfErr result (λ _. HasRisen (H.meaning.fault_count self.old.shelf) (H.meaning.fault_count self.new.shelf)) }
        ensures joins { H.meaning.honest self.new.shelf → (publisher : PublisherOf) (x : Given) → IsPlan publisher x planned → IsRegistered x.caller x.before.tenderers
            → H.meaning.holds self.old.shelf x.before → KeepsReleases x.before
            → (xs : List Given) → Reaches (publishing publisher) xs x.before → Joins H.meaning publisher self.new.shelf x (read_text result) xs }
    {
        laws::accounts();
        keeping();
        fates::tenders();
        fates::securities();
        fates::performances();
        let (puts, reply) = planned.into_parts();
        match self.carry_out(puts) {
            Ok(()) => Ok(reply),
            Err(_) => Err(Refusal::Unavailable),
        }
    }

    /// Answers a command: plans it and carries it out. Clause `joins` assumes that a tenderer who gives it is registered.
    pub fn ask(
        &mut self,
        moment: Moment,
        caller: &Caller,
        command: Command<'_>,
    ) -> Result<Vec<u8>, Refusal>
        ensures does { Does H.meaning self.old.settings.publisher self.old.shelf self.new.shelf result (λ s. given s moment caller.now command.entry) }
        ensures settings { self.new.settings ≡ self.old.settings }
        ensures answered { H.meaning.honest self.new.shelf → (s : Tables) → H.meaning.holds self.old.shelf s
            → IsReplyOrRefusal self.old.settings.publisher (given s moment caller.now command.entry) (read_text result) }
        ensures joins { H.meaning.honest self.new.shelf → (s : Tables) → IsRegistered caller.now s.tenderers → H.meaning.holds self.old.shelf s → KeepsReleases s
            → (xs : List Given) → Reaches (publishing self.old.settings.publisher) xs s
            → Joins H.meaning self.old.settings.publisher self.new.shelf (given s moment caller.now command.entry) (read_text result) xs }
    {
        laws::accounts();
        keeping();
        fates::tenders();
        fates::securities();
        fates::performances();
        let planned = self.plan(moment, caller, command)?;
        self.commit(planned)
    }

    /// Answers a query, which changes nothing. A package is shown only if each release that its notice's row counts exists, as the office writes it. A budget line
    /// is shown only if its balances add up. A refused query gets its refusal, or the store has counted another fault.
    pub fn look(&mut self, caller: &Caller, query: Query) -> Result<Vec<u8>, Refusal>
        ensures looks { Looks H.meaning self.old.shelf self.new.shelf (λ s. IsSeen self.old.settings.publisher caller.now query s (read_text result)) }
        ensures shown { H.meaning.honest self.new.shelf → (s : Tables) → H.meaning.holds self.old.shelf s → OnOk result (HasShown self.old.settings.publisher query s) }
        ensures settings { self.new.settings ≡ self.old.settings }
        ensures forbidden { may_look caller.now (queries.query_kind_of query) ≡ false → result ≡ Err Refusal.Forbidden }
        ensures tells { TellsQuery H.meaning self.old.shelf self.new.shelf caller.now query result }
    {
        if !may_look(caller, query.kind()) {
            return Err(Refusal::Forbidden);
        }
        let publisher = &self.settings.publisher;
        look_at(self.alloc, &mut self.shelf, publisher, caller, query)
    }
}

impl<H: StoredShelf + Drop> Desk<H> {
    /// Whether a fault has closed the store for good. Nothing changes. A fault of this call is counted like any other.
    pub fn is_shut(&mut self) -> Result<bool, ShelfFault>
        ensures told { TellsShut H.meaning H.store self.old.shelf self.new.shelf result }
        ensures settings { self.new.settings ≡ self.old.settings }
    {
        self.shelf.is_shut()
    }
}
