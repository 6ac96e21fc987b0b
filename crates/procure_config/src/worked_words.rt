//! Examples of arguments, computed by clap's own definitions.
ghost use Rattle.std.specs.Prelude.{◌≡◌, true, false, codes, [], ◌∷◌, None, Some};
ghost use Rattle.clap.specs.Words.{takes};
ghost use Rattle.procure_config.specs.Jobs as spec;
ghost use Rattle.procure_config.specs.Jobs.{Desk, Evaluation, Ledger, Minutes, Notices, ReadBudget, ReadTender, Record, Serve, asked, faults_of};

use clap::error::ErrorKind;

/// Arguments that ask for each job.
pub fn worked_jobs()
    ensures desk { asked (codes "procure" ∷ codes "desk" ∷ codes "a" ∷ []) ≡ Some (Desk (codes "a")) }
    ensures serve { asked (codes "procure" ∷ codes "serve" ∷ codes "a" ∷ codes "b" ∷ codes "80" ∷ codes "3" ∷ []) ≡ Some (Serve (codes "a") (codes "b") 80 3) }
    ensures ledger { asked (codes "procure" ∷ codes "ledger" ∷ codes "a" ∷ codes "b" ∷ []) ≡ Some (Ledger (codes "a") (codes "b")) }
    ensures minutes { asked (codes "procure" ∷ codes "minutes" ∷ codes "a" ∷ codes "b" ∷ codes "N1" ∷ []) ≡ Some (Minutes (codes "a") (codes "b") (codes "N1")) }
    ensures record_of { asked (codes "procure" ∷ codes "record" ∷ codes "a" ∷ codes "b" ∷ codes "N1" ∷ []) ≡ Some (Record (codes "a") (codes "b") (codes "N1")) }
    ensures notices { asked (codes "procure" ∷ codes "notices" ∷ codes "a" ∷ codes "b" ∷ []) ≡ Some (Notices (codes "a") (codes "b")) }
    ensures evaluation { asked (codes "procure" ∷ codes "evaluation" ∷ codes "a" ∷ codes "b" ∷ codes "N1" ∷ []) ≡ Some (Evaluation (codes "a") (codes "b") (codes "N1")) }
    ensures read_tender { asked (codes "procure" ∷ codes "read-tender" ∷ codes "a" ∷ codes "b" ∷ []) ≡ Some (ReadTender (codes "a") (codes "b")) }
    ensures read_budget { asked (codes "procure" ∷ codes "read-budget" ∷ codes "a" ∷ []) ≡ Some (ReadBudget (codes "a")) }
    ensures taken { takes spec.procure (codes "procure" ∷ codes "serve" ∷ codes "a" ∷ codes "b" ∷ codes "65535" ∷ codes "1000000" ∷ []) ≡ true }
    ensures right { faults_of (codes "procure" ∷ codes "desk" ∷ codes "office.toml" ∷ []) ≡ [] }
{}

/// Arguments that name no job, and the kinds of their faults.
pub fn worked_faults()
    ensures none { takes spec.procure (codes "procure" ∷ []) ≡ false }
    ensures more { takes spec.procure (codes "procure" ∷ codes "desk" ∷ codes "a" ∷ codes "b" ∷ []) ≡ false }
    ensures no_word { faults_of [] ≡ ErrorKind.MissingSubcommand ∷ [] }
    ensures no_path { faults_of (codes "procure" ∷ codes "desk" ∷ []) ≡ ErrorKind.MissingRequiredArgument ∷ [] }
    ensures no_tender { faults_of (codes "procure" ∷ codes "read-tender" ∷ codes "a" ∷ []) ≡ ErrorKind.MissingRequiredArgument ∷ [] }
    ensures no_notice { faults_of (codes "procure" ∷ codes "minutes" ∷ codes "a" ∷ codes "b" ∷ []) ≡ ErrorKind.MissingRequiredArgument ∷ [] }
    ensures unknown { faults_of (codes "procure" ∷ codes "shop" ∷ []) ≡ ErrorKind.UnknownArgument ∷ ErrorKind.InvalidSubcommand ∷ [] }
    ensures port_0 { faults_of (codes "procure" ∷ codes "serve" ∷ codes "a" ∷ codes "b" ∷ codes "0" ∷ codes "3" ∷ []) ≡ ErrorKind.ValueValidation ∷ [] }
    ensures port_65536 { faults_of (codes "procure" ∷ codes "serve" ∷ codes "a" ∷ codes "b" ∷ codes "65536" ∷ codes "3" ∷ []) ≡ ErrorKind.ValueValidation ∷ [] }
    ensures count_1000001 { faults_of (codes "procure" ∷ codes "serve" ∷ codes "a" ∷ codes "b" ∷ codes "80" ∷ codes "1000001" ∷ []) ≡ ErrorKind.ValueValidation ∷ [] }
    ensures help { faults_of (codes "procure" ∷ codes "--help" ∷ []) ≡ ErrorKind.DisplayHelp ∷ [] }
    ensures version { faults_of (codes "procure" ∷ codes "--version" ∷ []) ≡ ErrorKind.DisplayVersion ∷ [] }
    ensures version_short { faults_of (codes "procure" ∷ codes "-V" ∷ []) ≡ ErrorKind.DisplayVersion ∷ [] }
    ensures version_of_a_job { faults_of (codes "procure" ∷ codes "desk" ∷ codes "--version" ∷ []) ≡ ErrorKind.UnknownArgument ∷ [] }
    ensures port_0_asks { asked (codes "procure" ∷ codes "serve" ∷ codes "a" ∷ codes "b" ∷ codes "0" ∷ codes "3" ∷ []) ≡ None }
{}
