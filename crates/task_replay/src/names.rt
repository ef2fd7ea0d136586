//! How each act is written, and which act is written so: by the constant `NAMES`.
ghost use Rattle.std.specs.Prelude.{◌≡◌, Some, IfSome};
ghost use Rattle.task_core.specs.declared.acts.Act.{Act};
ghost use Rattle.std.specs.List.{find};
ghost use Rattle.std.specs.Option.{option_map};
ghost use Rattle.std.specs.Str.{bytes_eq};
ghost use Rattle.task_core.specs.contracts.acts.ActPartialEq.TheImpl as same;
ghost use Rattle.task_replay.specs.Names.{entries, name_of};

use task_core::acts::{Act, NAMES};

/// How an act is written.
pub fn name(act: Act) -> &'static str
    ensures { result.now ≡ name_of act }
{
    match entry_of_act(act) {
        Some(entry) => entry.1,
        None => "",
    }
}

/// The act that is written so. `None` where no act is.
pub fn named(text: &str) -> Option<Act>
    ensures named { IfSome result (λ act. name_of act ≡ text.now) }
    ensures known { (act : Act) → name_of act ≡ text.now → result ≡ Some act }
{
    match entry_of_text(text) {
        Some(entry) => Some(entry.0),
        None => None,
    }
}

// The entry of an act.
fn entry_of_act(act: Act) -> Option<&'static (Act, &'static str)>
    ensures { option_map (λ e. (e.now.0, e.now.1.now)) result ≡ find (λ e. same.ghosts.eq e.0 act) entries }
{
    NAMES.iter().find(|entry| entry.0 == act)
}

// The first entry that is written so.
fn entry_of_text(text: &str) -> Option<&'static (Act, &'static str)>
    ensures { option_map (λ e. (e.now.0, e.now.1.now)) result ≡ find (λ e. bytes_eq e.1 text.now) entries }
{
    NAMES.iter().find(|entry| entry.1 == text)
}
