//! What the grammar of records promises.
ghost use Rattle.std.specs.Prelude.{◌≡◌, List, ℕ};
ghost use Rattle.audit_lex.specs.declared.header.EventKey.{EventKey};
ghost use Rattle.audit_record.specs.Records.{Spells, IsUsed};
ghost use Rattle.audit_record.specs.declared.types.Record.{Record};

/// A line spells at most one record, and it spells one exactly if it is used.
pub fn one_record_a_line()
    ensures one { (line : List ℕ) (a b : Record) → Spells line a → Spells line b → a ≡ b }
    ensures spells { (line : List ℕ) (key : EventKey) → IsUsed line key
        → (made : Record) × Spells line made }
    ensures used { (line : List ℕ) (said : Record) → Spells line said → IsUsed line said.key }
{}
