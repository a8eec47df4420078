ghost use Rattle.gen_files.specs.declared.limits.TheConstants.{GEN_MAX};
ghost use Rattle.std.specs.Prelude.{◌≡◌, ◌≤◌, IfSome};
ghost use Rattle.std.specs.List.{list_all};
ghost use Rattle.std.specs.Option.{option_map};
ghost use Rattle.tool_words.specs.Command.{Walk, Foresee};
ghost use Rattle.tool_words.specs.Command.{texts, hook_of, is_name_byte, is_front, count_of, gen_request};
ghost use Rattle.tool_words.specs.Command.{request_of_one, request_of_two, request_of_three};
ghost use Rattle.tool_words.specs.Command.{request_of_four, request_of_five, request_of};
ghost use Rattle.tool_words.specs.Requests.{request, HasFewFilters};

use gen_files::GEN_MAX;
use tc_base::Hook;
use tc_words::read_decimal;

/// What the words of the command line ask for, with the names that they give.
#[derive(Clone, Copy)]
pub enum Command<'a> {
    Walk {
        hook: Hook,
        batch: &'a str,
        capture: &'a str,
        output: &'a str,
    },
    Show {
        batch: &'a str,
    },
    Run {
        job: &'a str,
    },
    Recheck {
        job: &'a str,
        report: &'a str,
    },
    Gen {
        count: u32,
        front: &'a str,
    },
    Trace {
        hook: Hook,
        batch: &'a str,
        capture: &'a str,
    },
    TraceReport {
        job: &'a str,
        report: &'a str,
    },
    Foresee {
        hook: Hook,
        batch: &'a str,
        change: &'a str,
        capture: &'a str,
        force: bool,
    },
}

/// The files of a walk.
#[derive(Clone, Copy)]
pub struct WalkNames<'a> {
    pub batch: &'a str,
    pub capture: &'a str,
    pub output: &'a str,
}

/// The files of a change: a batch, the change that is applied behind it, and a capture.
#[derive(Clone, Copy)]
pub struct ChangeNames<'a> {
    pub batch: &'a str,
    pub change: &'a str,
    pub capture: &'a str,
}

fn hook_named(word: &str) -> Option<Hook>
    ensures { result ≡ hook_of word.now }
{
    match word {
        "ingress" => Some(Hook::Ingress),
        "egress" => Some(Hook::Egress),
        _ => None,
    }
}

fn count_named(word: &str) -> Option<u32>
    ensures value { result ≡ count_of word.now }
    ensures within { IfSome result (λ count. (1 ≤ count) × (count ≤ GEN_MAX)) }
{
    match read_decimal(word.as_bytes(), GEN_MAX) {
        None => None,
        Some(count) => { if count >= 1 { Some(count) } else { None } }
    }
}

fn name_byte(byte: u8) -> bool
    ensures { result ≡ is_name_byte byte }
{
    if byte == b'#' {
        return false;
    }
    byte >= b'!' && byte <= b'~'
}

fn all_name_bytes(word: &[u8]) -> bool
    ensures { result ≡ list_all is_name_byte word.now }
{
    word.iter().all(|byte| name_byte(*byte))
}

// Whether made files may have names that begin so.
fn may_begin_names(word: &str) -> bool
    ensures { result ≡ is_front word.now }
{
    if word.is_empty() || word.len() > 200 {
        return false;
    }
    all_name_bytes(word.as_bytes())
}

fn with_one<'a>(verb: &str, name: &'a str) -> Option<Command<'a>>
    ensures value { option_map request result ≡ request_of_one verb.now name.now }
    ensures few { IfSome result HasFewFilters }
{
    match verb {
        "show" => Some(Command::Show { batch: name }),
        "run" => Some(Command::Run { job: name }),
        _ => None,
    }
}

fn gen_command<'a>(count: Option<u32>, front: &'a str) -> Option<Command<'a>>
    requires { IfSome count (λ count. (1 ≤ count) × (count ≤ GEN_MAX)) }
    ensures value { option_map request result ≡ gen_request count front.now }
    ensures few { IfSome result HasFewFilters }
{
    match count {
        None => None,
        Some(count) => {
            if may_begin_names(front) {
                Some(Command::Gen { count, front })
            } else {
                None
            }
        }
    }
}

fn with_two<'a>(verb: &str, first: &'a str, second: &'a str) -> Option<Command<'a>>
    ensures value { option_map request result ≡ request_of_two verb.now first.now second.now }
    ensures few { IfSome result HasFewFilters }
{
    match verb {
        "recheck" => Some(Command::Recheck {
            job: first,
            report: second,
        }),
        "gen" => gen_command(count_named(first), second),
        "trace" => Some(Command::TraceReport {
            job: first,
            report: second,
        }),
        _ => None,
    }
}

fn with_three<'a>(verb: &str, hook: &str, batch: &'a str, capture: &'a str) -> Option<Command<'a>>
    ensures value { option_map request result ≡ request_of_three verb.now hook.now batch.now capture.now }
    ensures few { IfSome result HasFewFilters }
{
    if verb != "trace" {
        return None;
    }
    match hook_named(hook) {
        None => None,
        Some(hook) => Some(Command::Trace {
            hook,
            batch,
            capture,
        }),
    }
}

fn walk_command<'a>(
    hook: Option<Hook>,
    batch: &'a str,
    capture: &'a str,
    output: &'a str,
) -> Option<Command<'a>>
    ensures value { option_map request result ≡ option_map (λ h. Walk h batch.now capture.now output.now) hook }
    ensures few { IfSome result HasFewFilters }
{
    match hook {
        None => None,
        Some(hook) => Some(Command::Walk {
            hook,
            batch,
            capture,
            output,
        }),
    }
}

fn foresee_command<'a>(
    hook: Option<Hook>,
    batch: &'a str,
    change: &'a str,
    capture: &'a str,
    force: bool,
) -> Option<Command<'a>>
    ensures value { option_map request result
        ≡ option_map (λ h. Foresee h (record { batch = batch.now; change = change.now; capture = capture.now }) force)
        hook }
    ensures few { IfSome result HasFewFilters }
{
    match hook {
        None => None,
        Some(hook) => Some(Command::Foresee {
            hook,
            batch,
            change,
            capture,
            force,
        }),
    }
}

fn with_four<'a>(
    verb: &str,
    hook: &str,
    batch: &'a str,
    second: &'a str,
    third: &'a str,
) -> Option<Command<'a>>
    ensures value { option_map request result ≡ request_of_four verb.now hook.now batch.now second.now third.now }
    ensures few { IfSome result HasFewFilters }
{
    match verb {
        "walk" => walk_command(hook_named(hook), batch, second, third),
        "foresee" => foresee_command(hook_named(hook), batch, second, third, false),
        _ => None,
    }
}

fn with_five<'a>(
    verb: &str,
    hook: &str,
    batch: &'a str,
    change: &'a str,
    capture: &'a str,
    last: &str,
) -> Option<Command<'a>>
    ensures value { option_map request result ≡ request_of_five verb.now hook.now batch.now change.now
        capture.now last.now }
    ensures few { IfSome result HasFewFilters }
{
    if verb == "foresee" && last == "force" {
        foresee_command(hook_named(hook), batch, change, capture, true)
    } else {
        None
    }
}

/// The command that these words are, without the program's own name, or None where they are none. It takes no
/// memory.
pub fn command_of(words: &[String]) -> Option<Command<'_>>
    ensures value { option_map request result ≡ request_of (texts words.now) }
    ensures few { IfSome result HasFewFilters }
{
    match words {
        [verb, name] => with_one(verb.as_str(), name.as_str()),
        [verb, first, second] => with_two(verb.as_str(), first.as_str(), second.as_str()),
        [verb, hook, batch, capture] => with_three(
            verb.as_str(),
            hook.as_str(),
            batch.as_str(),
            capture.as_str(),
        ),
        [verb, hook, batch, second, third] => with_four(
            verb.as_str(),
            hook.as_str(),
            batch.as_str(),
            second.as_str(),
            third.as_str(),
        ),
        [verb, hook, batch, change, capture, last] => with_five(
            verb.as_str(),
            hook.as_str(),
            batch.as_str(),
            change.as_str(),
            capture.as_str(),
            last.as_str(),
        ),
        _ => None,
    }
}
