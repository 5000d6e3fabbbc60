//! Theorems about profiles: what the tests decide, in terms of the texts.
//! Each is a function without code, whose contract is the theorem.

ghost use Rattle.std.specs.Prelude.{◌≡◌, ◌↔◌, ◌++◌, ◌==◌, IsTrue, codes, false, not};
ghost use Rattle.std.specs.List.{list_all};
ghost use Rattle.values.specs.Laws.{AreDistinct, AreNetworks, IsKeyId, IsNamed, Meets};
ghost use Rattle.values.specs.Lists.{are_distinct};
ghost use Rattle.values.specs.Names.{
  department_of,
  is_for_names,
  is_key_id,
  is_meant,
  is_name,
  meets,
  name_of,
};
ghost use Rattle.values.specs.Networks.{are_networks};

use text::Text;

/// A principal meets a rule without `{name}` exactly when it is the rule, or the rule is `*` and a suffix, and the
/// principal is one or more bytes followed by that suffix. The name doesn't matter.
pub fn rules_are_met_by_suffixes(name: &[u8], principal: &[u8], rule: &[u8])
    ensures { is_for_names rule.now ≡ false → IsTrue (meets name.now principal.now rule.now)
        ↔ Meets principal.now rule.now }
{}

/// A principal meets `{name}` and a suffix exactly when it is the name and the suffix, and isn't `root` if the suffix
/// is empty. A rule is for names exactly when it is `{name}` and a suffix.
pub fn rules_are_met_by_names(name: &[u8], principal: &[u8], suffix: &[u8])
    ensures met { IsTrue (meets name.now principal.now (codes "{name}" ++ suffix.now))
        ↔ IsNamed name.now principal.now suffix.now }
    ensures kind { IsTrue (is_for_names (codes "{name}" ++ suffix.now)) }
{}

/// A prefix and `{name}` mean exactly the caller that is the prefix and the name.
pub fn callers_are_meant_by_names(name: &[u8], caller: &[u8], prefix: &[u8])
    ensures { IsTrue (is_meant name.now caller.now (prefix.now ++ codes "{name}"))
        ↔ (caller.now ≡ prefix.now ++ name.now) }
{}

/// The name in a key ID stands between its first `/` and the next, or its end.
pub fn key_ids_have_names(department: &[u8], name: &[u8], rest: &[u8])
    ensures last { IsTrue (is_name department.now) → IsTrue (list_all (λ b. not (b == 47)) name.now)
        → name_of (department.now ++ (codes "/" ++ name.now)) ≡ name.now }
    ensures further { IsTrue (is_name department.now) → IsTrue (list_all (λ b. not (b == 47)) name.now)
        → name_of (department.now ++ (codes "/" ++ (name.now ++ (codes "/" ++ rest.now)))) ≡ name.now }
{}

/// A text is a key ID exactly when it is a name, `/` and 1 to 64 printable bytes, and that name is its department.
pub fn key_ids_begin_with_departments(text: &[u8], department: &[u8])
    ensures found { IsTrue (is_key_id text.now) → IsKeyId text.now (department_of text.now) }
    ensures only { IsKeyId text.now department.now → IsTrue (is_key_id text.now) }
    ensures department { IsKeyId text.now department.now → department_of text.now ≡ department.now }
{}

/// A text lists networks exactly when it is the text of 1 to 8 of them, joined by commas.
pub fn networks_are_spelled_one_way(text: &[u8])
    ensures { IsTrue (are_networks text.now) ↔ AreNetworks text.now }
{}

/// Texts are distinct exactly when no two places hold the same text.
pub fn distinct_texts_differ_at_each_place(texts: &[Text])
    ensures { IsTrue (are_distinct texts.now) ↔ AreDistinct texts.now }
{}
