//! Where jumps and returns lead.
ghost use Rattle.std.specs.Prelude.{◌≡◌, ◌∷◌, [], bytes_eq, reverse, option_copied, IfOk};
ghost use Rattle.std.specs.List.{find, list_any};
ghost use Rattle.core_lowering_rules.specs.Scopes.{is_meant};
ghost use Rattle.core_lowering_context.specs.Exits.{goes_on};

use core_lowering_drafts::Exit;
use java_tree::Ident;
use racer_base::{Memory, Text, VarId};
use std::alloc::Global;
use std::marker::Model;

/// A statement that jumps lead behind: its labels, the innermost last; the exit of `break`, and of a loop that of
/// `continue`; whether a `break` without a name leads there.
#[derive(Drop)]
pub struct Target {
    pub labels: Vec<Text>,
    pub break_to: Exit,
    pub continue_to: Option<Exit>,
    pub is_unnamed: bool,
}

impl Model for Target {
    ghost use Rattle.std.specs.Prelude.{reverse};
    ghost use Rattle.core_lowering_rules.specs.Context.{Target};
    ghost use Rattle.core_lowering_context.specs.Exits.{exit_seen};

    ghost Value = { Target };

    ghost view = { λ target. record {
      labels = reverse target.labels.items;
      break_to = target.break_to.0;
      continue_to = exit_seen target.continue_to;
      is_unnamed = target.is_unnamed;
    } };
}

/// Whether a text is one of these.
fn has_text(texts: &[Text], text: &str) -> bool
    ensures { result ≡ list_any (bytes_eq text.now) texts.now }
{
    for other in texts {
        if text == other.as_str() {
            return true;
        }
    }
    false
}

impl Target {
    ghost use Rattle.std.specs.Prelude.{◌≡◌, option_copied};
    ghost use Rattle.core_lowering_rules.specs.Scopes.{has_label, is_meant};
    ghost use Rattle.core_lowering_context.specs.Exits.{goes_on};

    fn has_label(&self, x: &Ident) -> bool
        ensures { result ≡ has_label x.now self.now }
    {
        has_text(self.labels.as_slice(), x.text.as_str())
    }

    /// Whether a `break` with this name or without a name may lead behind it.
    pub fn is_meant(&self, x: Option<&Ident>) -> bool
        ensures { result ≡ is_meant (option_copied x.entry) self.now }
    {
        match x {
            None => self.is_unnamed,
            Some(x) => self.has_label(x),
        }
    }

    /// Whether a `continue` with this name or without a name may lead to its next round.
    pub fn goes_on(&self, x: Option<&Ident>) -> bool
        ensures { result ≡ goes_on (option_copied x.entry) self.now }
    {
        self.continue_to.is_some() && self.is_meant(x)
    }
}

/// A `try` with a `finally` round what stands in its first part: the exit of returns there, and the variable of what is
/// returned, where a return was there.
#[derive(Clone, Copy)]
pub struct Guard {
    pub exit: Exit,
    pub variable: Option<VarId>,
}

/// The exits of a loop.
#[derive(Clone, Copy)]
pub struct LoopExits {
    pub break_to: Exit,
    pub continue_to: Exit,
}

/// Where a return leads in the first part of a `try` with a `finally`, and the variable of what is returned.
#[derive(Clone, Copy)]
pub struct Sent {
    pub exit: Exit,
    pub variable: VarId,
}

/// What is as before behind code that is not kept.
#[derive(Drop)]
pub struct Kept {
    pub variables: usize,
    pub kinds: usize,
    pub exits: u32,
    pub labels: Vec<Text>,
    pub guards: Vec<Guard>,
    pub is_apart: bool,
}

impl Model for Kept {
    ghost use Rattle.std.specs.Prelude.{reverse};
    ghost use Rattle.core_lowering_context.specs.Exits.{guards_seen};
    ghost use Rattle.core_lowering_context.specs.Restored.{Kept};

    ghost Value = { Kept };

    ghost view = { λ kept. record {
      variables = kept.variables;
      kinds = kept.kinds;
      exits = kept.exits;
      labels = reverse kept.labels.items;
      guards = guards_seen kept.guards.items;
      is_apart = kept.is_apart;
    } };
}

/// The innermost statement behind which a `break` leads.
pub fn innermost_meant<'a>(targets: &'a [Target], x: Option<&Ident>) -> Option<&'a Target>
    ensures { option_copied result ≡ find (is_meant (option_copied x.entry)) (reverse targets.now) }
{
    for i in (0..targets.len()).rev() {
        if targets[i].is_meant(x) {
            return Some(&targets[i]);
        }
    }
    None
}

/// The innermost loop in whose next round a `continue` leads.
pub fn innermost_going_on<'a>(targets: &'a [Target], x: Option<&Ident>) -> Option<&'a Target>
    ensures { option_copied result ≡ find (goes_on (option_copied x.entry)) (reverse targets.now) }
{
    for i in (0..targets.len()).rev() {
        if targets[i].goes_on(x) {
            return Some(&targets[i]);
        }
    }
    None
}

/// A label alone.
pub fn one_label(alloc: Global, x: &Ident) -> Result<Vec<Text>, Memory>
    ensures { IfOk result (λ labels. labels.items ≡ x.now.text ∷ []) }
{
    let mut labels = Vec::new(alloc);
    labels.push(Text::from_str(alloc, x.text.as_str())?)?;
    Ok(labels)
}

/// The same once more.
pub fn copied_guards(alloc: Global, guards: &[Guard]) -> Result<Vec<Guard>, Memory>
    ensures { IfOk result (λ copy. copy.items ≡ guards.now) }
{
    let mut copy = Vec::new(alloc);
    for guard in guards {
        copy.push(*guard)?;
    }
    Ok(copy)
}

/// The same texts once more.
pub fn copied_texts(alloc: Global, texts: &[Text]) -> Result<Vec<Text>, Memory>
    ensures { IfOk result (λ copy. copy.items ≡ texts.now) }
{
    let mut copy = Vec::new(alloc);
    for text in texts {
        copy.push(Text::from_str(alloc, text.as_str())?)?;
    }
    Ok(copy)
}
