//! Departments as rows, and rows as departments.
//!
//! Large values are dropped explicitly: if a function ends with one, its proof takes each field apart.

ghost use Rattle.std.specs.Prelude.{◌≡◌, ◌<◌, ◌^◌, ◌∷◌, [], IfOk, IsTrue, Some, drop, map};
ghost use Rattle.std.specs.List.{join_with_byte};
ghost use Rattle.message.specs.declared.department.Department.{Department};
ghost use Rattle.message.specs.Values.{is_department};
ghost use Rattle.cert.specs.Bodies.{kind_number};
ghost use Rattle.lines.specs.Signers.{list_text};
ghost use Rattle.store.specs.Rows.{department_row};
ghost use Rattle.store.specs.Reading.{IsRead};
ghost use Rattle.store.specs.Departments.{IsReadOrDamaged};
ghost use Rattle.cert.specs.Reading.{kind_of};
ghost use Rattle.message.specs.Texts.{demand_line, key_types_lines};
ghost use Rattle.store.specs.Departments.{
  additions_in,
  additions_of,
  demands_of,
  department_of_row,
  first_parted,
  if_lawful,
  key_types_of,
  lines_of,
  parted,
  parts_of,
  whole_of,
};

use crate::rows::numbers::number;
use message::{
    Department, are_administrators, are_demands, are_extension_names, are_key_types,
    are_namespaces, are_option_names, are_rules, demand_after, demand_line_of, fits_bare_name,
    fits_kind, has_bare_name, key_types_after, key_types_line_of,
};
use std::alloc::Global;
use store_sql::{DepartmentRow, Fault, Number};
use text::{NoMemory, Pair, Pairs, Text, Texts, both, cut};
use values::{Kind, LONGEST_LIFE, is_name};

/// Why a row of the table of departments wasn't read.
#[derive(Clone, Copy, Debug, PartialEq, Eq)]
pub enum RowFault {
    /// It isn't the row of a valid department.
    Damaged,
    /// An allocation was refused.
    NoMemory,
}

/// The texts joined by this byte.
fn joined_by(alloc: Global, byte: u8, texts: &[Text]) -> Result<Text, NoMemory>
    ensures { IfOk result (λ t. t ≡ join_with_byte byte texts.now) }
{
    let Some((first, rest)) = texts.split_first() else {
        return Ok(Text::new(alloc));
    };
    let mut bytes = Vec::from_slice(alloc, first.as_slice())?;
    for text in rest {
        bytes.push(byte)?;
        bytes.extend_from_slice(text.as_slice())?;
    }
    Ok(Text::from_vec(bytes))
}

/// The texts joined by commas.
fn joined(alloc: Global, texts: &[Text]) -> Result<Text, NoMemory>
    ensures { IfOk result (λ t. t ≡ list_text texts.now) }
{
    joined_by(alloc, b',', texts)
}

/// Texts joined by commas on the first line, and the lines of options that certificates must have.
fn options_column(alloc: Global, options: &[Text], demands: &[Pair]) -> Result<Text, NoMemory>
    ensures { IfOk result (λ t. t ≡ join_with_byte 10 (list_text options.now ∷ map demand_line demands.now)) }
{
    let mut lines = Texts::new(alloc);
    lines.push(joined(alloc, options)?)?;
    for demand in demands {
        lines.push(demand_line_of(alloc, demand)?)?;
    }
    joined_by(alloc, b'\n', lines.as_slice())
}

/// Texts joined by commas on the first line, and the line of key types, if there are any.
fn extensions_column(
    alloc: Global,
    extensions: &[Text],
    key_types: &[Text],
) -> Result<Text, NoMemory>
    ensures { IfOk result (λ t. t ≡ join_with_byte 10 (list_text extensions.now ∷ key_types_lines key_types.now)) }
{
    let first = joined(alloc, extensions)?;
    if key_types.is_empty() {
        return Ok(first);
    }
    let mut lines = Texts::new(alloc);
    lines.push(first)?;
    lines.push(key_types_line_of(alloc, key_types)?)?;
    joined_by(alloc, b'\n', lines.as_slice())
}

fn copied(alloc: Global, pieces: &[&[u8]]) -> Result<Texts, NoMemory>
    ensures { IfOk result (λ t. t ≡ map (λ x. x.now) pieces.now) }
{
    let mut texts = Texts::new(alloc);
    for piece in pieces {
        texts.push(Text::from_slice(alloc, piece)?)?;
    }
    Ok(texts)
}

/// The texts between the commas; none if there are no bytes.
fn parted(alloc: Global, text: &[u8]) -> Result<Texts, NoMemory>
    ensures { IfOk result (λ ts. ts ≡ parted text.now) }
{
    if text.is_empty() {
        return Ok(Texts::new(alloc));
    }
    let pieces = cut(alloc, text, b',')?;
    copied(alloc, pieces.as_slice())
}

fn kind_number(kind: Kind) -> Number
    ensures { result ≡ kind_number kind }
{
    match kind {
        Kind::User => number(1),
        Kind::Host => number(2),
    }
}

fn kind_of(number: Number) -> Option<Kind>
    ensures { result ≡ kind_of number }
{
    match number.get() {
        1 => Some(Kind::User),
        2 => Some(Kind::Host),
        _ => None,
    }
}

fn is_department(department: &Department) -> bool
    ensures { result ≡ is_department department.now }
{
    let kind = department.kind;
    let options = department.options.as_slice();
    let extensions = department.extensions.as_slice();
    let key_types = department.key_types.as_slice();
    let namespaces = department.namespaces.as_slice();
    is_name(department.name.as_slice())
        && are_administrators(department.administrators.as_slice())
        && are_rules(department.rules.as_slice())
        && are_option_names(options)
        && fits_kind(kind, options)
        && are_demands(kind, department.demands.as_slice())
        && are_extension_names(extensions)
        && fits_kind(kind, extensions)
        && (key_types.is_empty() || are_key_types(key_types))
        && 1 <= department.longest_life
        && department.longest_life <= LONGEST_LIFE
        && are_namespaces(namespaces)
        && fits_kind(kind, namespaces)
        && fits_bare_name(has_bare_name(&department.rules), namespaces)
}

/// The row of a department: its kind is 1 for users and 2 for hosts, and its lists are joined by commas, in their
/// order. After its options come the lines of those that certificates must have, after its extensions the line of key
/// types, each after a line feed.
pub fn department_row(alloc: Global, department: &Department) -> Result<DepartmentRow, NoMemory>
    requires { department.now.longest_life < 2 ^ 63 }
    ensures { IfOk result (λ row. row ≡ department_row department.now) }
{
    let people = both(
        joined(alloc, department.administrators.as_slice()),
        joined(alloc, department.rules.as_slice()),
    );
    let contents = both(
        options_column(
            alloc,
            department.options.as_slice(),
            department.demands.as_slice(),
        ),
        extensions_column(
            alloc,
            department.extensions.as_slice(),
            department.key_types.as_slice(),
        ),
    );
    let names = both(
        department.name.copied(alloc),
        joined(alloc, department.namespaces.as_slice()),
    );
    match both(names, both(people, contents)) {
        Ok(((name, namespaces), ((admins, rules), (options, extensions)))) => Ok(DepartmentRow {
            name,
            kind: kind_number(department.kind),
            admins,
            rules,
            options,
            extensions,
            max_life: number(department.longest_life),
            namespaces,
        }),
        Err(fault) => Err(fault),
    }
}

/// The texts on the first line.
fn first_parted(alloc: Global, lines: &[&[u8]]) -> Result<Texts, NoMemory>
    ensures { IfOk result (λ ts. ts ≡ first_parted (map (λ x. x.now) lines.now)) }
{
    match lines {
        [] => Ok(Texts::new(alloc)),
        [first, ..] => parted(alloc, first),
    }
}

/// The lines after the first.
fn further<'a, 'b>(lines: &'b [&'a [u8]]) -> &'b [&'a [u8]]
    ensures { map (λ x. x.now) result.now ≡ drop 1 (map (λ x. x.now) lines.now) }
{
    match lines {
        [] => lines,
        [_, rest @ ..] => rest,
    }
}

/// The options that certificates must have in the lines, if each line has one that may follow the earlier ones.
fn demands_of(alloc: Global, kind: Kind, lines: &[&[u8]]) -> Result<Option<Pairs>, NoMemory>
    ensures { IfOk result (λ o. o ≡ demands_of kind [] (map (λ x. x.now) lines.now)) }
{
    let mut demands = Pairs::new(alloc);
    for line in lines {
        match demand_after(alloc, kind, &demands, line)? {
            Some(demand) => demands.push(demand)?,
            None => return Ok(None),
        }
    }
    Ok(Some(demands))
}

/// The key types in at most one line.
fn key_types_of(alloc: Global, lines: &[&[u8]]) -> Result<Option<Texts>, NoMemory>
    ensures { IfOk result (λ o. o ≡ key_types_of (map (λ x. x.now) lines.now)) }
{
    match lines {
        [] => Ok(Some(Texts::new(alloc))),
        [line] => key_types_after(alloc, line),
        _ => Ok(None),
    }
}

/// What stands on the further lines of the columns of options and of extensions.
type Additions = (Pairs, Texts);

fn additions_in(
    alloc: Global,
    options: &[&[u8]],
    extensions: &[&[u8]],
    kind: Kind,
) -> Result<Option<Additions>, NoMemory>
    ensures { IfOk result (λ o. o ≡ additions_in (map (λ x. x.now) options.now) (map (λ x. x.now) extensions.now) kind) }
{
    let Some(demands) = demands_of(alloc, kind, further(options))? else {
        return Ok(None);
    };
    match key_types_of(alloc, further(extensions))? {
        Some(key_types) => Ok(Some((demands, key_types))),
        None => Ok(None),
    }
}

/// What stands on the further lines of the row's columns, of which these are the lines.
fn additions_of(
    alloc: Global,
    row: &DepartmentRow,
    kind: Kind,
    options: &[&[u8]],
    extensions: &[&[u8]],
) -> Result<Option<Additions>, NoMemory>
    requires options { map (λ x. x.now) options.now ≡ lines_of row.now.options }
    requires extensions { map (λ x. x.now) extensions.now ≡ lines_of row.now.extensions }
    ensures { IfOk result (λ o. o ≡ additions_of row.now kind) }
{
    additions_in(alloc, options, extensions, kind)
}

/// The department with these options, extensions and additions, and what else stands in its row.
fn parts_of(
    alloc: Global,
    row: &DepartmentRow,
    kind: Kind,
    options: &[&[u8]],
    extensions: &[&[u8]],
    additions: Additions,
) -> Result<Department, NoMemory>
    requires options { map (λ x. x.now) options.now ≡ lines_of row.now.options }
    requires extensions { map (λ x. x.now) extensions.now ≡ lines_of row.now.extensions }
    ensures { IfOk result (λ d. d ≡ parts_of row.now kind additions) }
{
    let people = both(
        parted(alloc, row.admins.as_slice()),
        parted(alloc, row.rules.as_slice()),
    );
    let contents = both(
        first_parted(alloc, options),
        first_parted(alloc, extensions),
    );
    let names = both(
        row.name.copied(alloc),
        parted(alloc, row.namespaces.as_slice()),
    );
    let (demands, key_types) = additions;
    match both(names, both(people, contents)) {
        Ok(((name, namespaces), ((administrators, rules), (options, extensions)))) => {
            Ok(Department {
                name,
                kind,
                administrators,
                rules,
                options,
                demands,
                extensions,
                key_types,
                longest_life: row.max_life.get(),
                namespaces,
            })
        }
        Err(fault) => Err(fault),
    }
}

/// The department of a row, valid or not, unless its additions can't be read.
fn whole_of(alloc: Global, row: &DepartmentRow, kind: Kind) -> Result<Option<Department>, NoMemory>
    ensures { IfOk result (λ o. o ≡ whole_of row.now kind) }
{
    let options = cut(alloc, row.options.as_slice(), b'\n')?;
    let extensions = cut(alloc, row.extensions.as_slice(), b'\n')?;
    match additions_of(alloc, row, kind, options.as_slice(), extensions.as_slice())? {
        Some(additions) => Ok(Some(parts_of(
            alloc,
            row,
            kind,
            options.as_slice(),
            extensions.as_slice(),
            additions,
        )?)),
        None => Ok(None),
    }
}

fn if_lawful(department: Department) -> Result<Department, Fault>
    ensures { IsRead (if_lawful department) result }
{
    if is_department(&department) {
        return Ok(department);
    }
    drop(department);
    Err(Fault::Damaged)
}

fn lawful_in(alloc: Global, row: &DepartmentRow) -> Result<Department, Fault>
    ensures { IsRead (department_of_row row.now) result }
{
    let Some(kind) = kind_of(row.kind) else {
        return Err(Fault::Damaged);
    };
    match whole_of(alloc, row, kind) {
        Ok(Some(department)) => if_lawful(department),
        Ok(None) => Err(Fault::Damaged),
        Err(_) => Err(Fault::NoMemory),
    }
}

/// The valid department of a row, `Damaged` if there is none, `NoMemory` if an allocation was refused.
pub fn read_department(alloc: Global, row: &DepartmentRow) -> Result<Department, Fault>
    ensures exact { IsRead (department_of_row row.now) result }

    // The department's row is this one.
    ensures found { IfOk result (λ d. IsTrue (is_department d) × (row.now ≡ department_row d)) }

    // The row of a valid department isn't damaged.
    ensures again { (d : Department) → IsTrue (is_department d) → row.now ≡ department_row d
        → IsRead (Some d) result }
{
    lawful_in(alloc, row)
}

/// The valid department of a row.
///
/// # Errors
///
/// `Damaged` if the row isn't that of a valid department, `NoMemory` if an allocation was refused.
pub fn read_department_row(alloc: Global, row: &DepartmentRow) -> Result<Department, RowFault>
    ensures exact { IsReadOrDamaged (department_of_row row.now) result }

    // The department is valid, and its row is this one.
    ensures found { IfOk result (λ d. IsTrue (is_department d) × (row.now ≡ department_row d)) }

    // The row of a valid department isn't damaged.
    ensures again { (d : Department) → IsTrue (is_department d) → row.now ≡ department_row d
        → IsReadOrDamaged (Some d) result }
{
    match read_department(alloc, row) {
        Ok(department) => Ok(department),
        Err(Fault::NoMemory) => Err(RowFault::NoMemory),
        Err(Fault::Damaged | Fault::Device) => Err(RowFault::Damaged),
    }
}
