//! Reading the settings of an item, each of which stands at most once.

ghost use Rattle.std.specs.Prelude.{◌≡◌, ◌<◌, ◌≤◌, length, IfOk};
ghost use Rattle.pt_taking.specs.Gives.{Gives};
ghost use Rattle.pt_grammar.specs.Reading.{goes_on};
ghost use Rattle.pt_grammar.specs.SuiteGrammar.{all_settings, with_setting, without};
ghost use Rattle.pt_grammar.specs.SuiteReading.{begins_setting, setting_at, settings_at};
ghost use Rattle.pt_read_items.specs.Settings.{plain_allowed, plain_setting};

use pt_ast::Settings;
use pt_grammar::Sort;
use pt_taking::{Stop, limited};
use pt_token::{Kind, Token, Word};

/// One setting, with its number.
#[derive(Clone, Copy)]
pub(crate) enum Setting {
    Runs(u32),
    Shrink(u32),
    Steps(u32),
}

/// Which settings may still stand.
#[derive(Clone, Copy)]
pub(crate) struct Allowed {
    pub(crate) runs: bool,
    pub(crate) shrink: bool,
    pub(crate) steps: bool,
}

impl Allowed {
    /// All of them, but `steps` only in a machine.
    fn all(steps: bool) -> Allowed
        ensures { plain_allowed result ≡ all_settings steps }
    {
        Allowed {
            runs: true,
            shrink: true,
            steps,
        }
    }

    /// The others.
    fn without(self, setting: Setting) -> Allowed
        ensures { plain_allowed result ≡ without (plain_allowed self) (plain_setting setting) }
    {
        match setting {
            Setting::Runs(_) => Allowed {
                runs: false,
                ..self
            },
            Setting::Shrink(_) => Allowed {
                shrink: false,
                ..self
            },
            Setting::Steps(_) => Allowed {
                steps: false,
                ..self
            },
        }
    }
}

/// These settings, but for the one.
fn with_setting(settings: Settings, setting: Setting) -> Settings
    ensures { result ≡ with_setting settings (plain_setting setting) }
{
    match setting {
        Setting::Runs(runs) => Settings { runs, ..settings },
        Setting::Shrink(shrink) => Settings { shrink, ..settings },
        Setting::Steps(steps) => Settings { steps, ..settings },
    }
}

/// Whether the next token begins a setting that may still stand.
fn begins_setting(allowed: Allowed, tokens: &[Token]) -> bool
    ensures { result ≡ goes_on (begins_setting (plain_allowed allowed)) tokens.now }
{
    match tokens.split_first() {
        Some((first, _)) => match first.kind {
            Kind::Word(Word::Runs) => allowed.runs,
            Kind::Word(Word::Shrink) => allowed.shrink,
            Kind::Word(Word::Steps) => allowed.steps,
            _ => false,
        },
        None => false,
    }
}

/// Reads a setting that may still stand.
#[tactic(auto, unfolding(pt_grammar::specs::SuiteReading::setting_on))]
fn read_setting(allowed: Allowed, tokens: &[Token]) -> Result<(Setting, &[Token]), Stop<'_>>
    ensures gives { Gives (λ x. (plain_setting x.0, x.1.now)) result (setting_at (plain_allowed allowed) tokens.now) }
    ensures shorter { IfOk result (λ x. length x.1.now < length tokens.now) }
{
    let Some((first, rest)) = tokens.split_first() else {
        return Err(Stop::At(Sort::Syntax, tokens));
    };
    match first.kind {
        Kind::Word(Word::Runs) if allowed.runs => {
            let (count, after) = limited(1, 10_000, rest)?;
            Ok((Setting::Runs(count), after))
        }
        Kind::Word(Word::Shrink) if allowed.shrink => {
            let (count, after) = limited(0, 1_000, rest)?;
            Ok((Setting::Shrink(count), after))
        }
        Kind::Word(Word::Steps) if allowed.steps => {
            let (count, after) = limited(1, 64, rest)?;
            Ok((Setting::Steps(count), after))
        }
        _ => Err(Stop::At(Sort::Syntax, tokens)),
    }
}

/// Reads the settings of an item, which may set the steps in a machine alone.
pub(crate) fn read_settings(steps: bool, tokens: &[Token]) -> Result<(Settings, &[Token]), Stop<'_>>
    ensures gives { Gives (λ x. (x.0, x.1.now)) result (settings_at steps tokens.now) }
    ensures shorter { IfOk result (λ x. length x.1.now ≤ length tokens.now) }
{
    let mut settings = Settings {
        runs: 100,
        shrink: 500,
        steps: 20,
    };
    let mut allowed = Allowed::all(steps);
    let mut rest = tokens;
    while begins_setting(allowed, rest) {
        let (setting, after) = read_setting(allowed, rest)?;
        settings = with_setting(settings, setting);
        allowed = allowed.without(setting);
        rest = after;
    }
    Ok((settings, rest))
}
