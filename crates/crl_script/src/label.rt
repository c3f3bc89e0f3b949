//! The names that labels stand for.
ghost use Rattle.std.specs.Prelude.{◌≡◌};
ghost use Rattle.std.specs.Map.{update};
ghost use Rattle.std.specs.Str.{bytes_eq};
ghost use Rattle.crl_script.specs.Labels.{names_in, known_names, names_at};
ghost use Rattle.crl_script.specs.Reading.{Gives, Changes};
ghost use Rattle.crl_script.specs.Statements.{region_of};

use crate::fault::{LineFault, ScriptWhy};
use crate::word::is_label;
use crl_model::name::Name;
use std::collections::BTreeMap;

/// The name of the region that each label's `create` makes.
pub type Labels<'a> = BTreeMap<&'a [u8], Name>;

/// The labels that a statement may name.
#[derive(Clone, Copy)]
pub enum Known<'k, 'a> {
    /// Each label; all stand for one name, that of no region.
    Any,
    /// Those that were created before the statement.
    SoFar,
    /// These.
    These(&'k Labels<'a>),
}

impl<'k, 'a> Known<'k, 'a> {
    /// The labels with their names, where `so_far` are those created before; `None` where each label has one.
    pub fn labels(self, so_far: &'k Labels<'a>) -> Option<&'k Labels<'a>>
        ensures { known_names result ≡ names_at self.entry (names_in so_far.now) }
    {
        match self {
            Known::Any => None,
            Known::SoFar => Some(so_far),
            Known::These(labels) => Some(labels),
        }
    }
}

/// Gives a label a name.
pub fn give<'a>(labels: &mut Labels<'a>, label: &'a [u8], name: Name) -> Result<(), LineFault>
    ensures { Changes result (names_in labels.new) (update bytes_eq (names_in labels.old) label.now (Some name)) }
{
    labels.insert(label, name)?;
    Ok(())
}

/// The name that a label stands for. Where no names are known, any label has one.
///
/// # Errors
///
/// `BadWord`, where the word is no label; `UnknownLabel`, where it has no name.
#[tactic(auto, unfolding(crate::specs::Statements::region_of))]
pub fn region(known: Option<&Labels<'_>>, label: &[u8]) -> Result<Name, LineFault>
    ensures { Gives (λ n. n) result (region_of (known_names known.entry) label.now) }
{
    if !is_label(label) {
        return Err(LineFault::Bad(ScriptWhy::BadWord));
    }
    match known {
        None => Ok(Name::new(0, 0)),
        Some(labels) => match labels.get(label) {
            Some(name) => Ok(*name),
            None => Err(LineFault::Bad(ScriptWhy::UnknownLabel)),
        },
    }
}
