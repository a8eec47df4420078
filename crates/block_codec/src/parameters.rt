//! The five words of an action's parameters.
ghost use Rattle.std.specs.Prelude.{◌≡◌, ◌%◌, ◌^◌, ◌↔◌, IsTrue, length};
ghost use Rattle.act_kinds.specs.Ranges.{IsControl};
ghost use Rattle.block_codec.specs.Blocks.{IsTheOnly, plus_one};
ghost use Rattle.block_codec.specs.Parameters.{control_word, vlan_words, flag_of, number_of, skbedit_words};
ghost use Rattle.block_codec.specs.Parameters.{params_words, AreStorable, FitParams, AreParamsIn};
ghost use Rattle.block_codec.specs.ReadingParameters.{control_in, priority_in, vlan_in, given_if, skbedit_in};
ghost use Rattle.block_codec.specs.ReadingParameters.{params_in};

use crate::block::{both_halves, high_half, low_half};
use act_kinds::{CHAIN_MAX, Control, Params, VlanOp};

// The kinds of actions.
const GACT: u64 = 1;

const VLAN: u64 = 2;

const SKBEDIT: u64 = 3;

// What is done to a tag.
const PUSH: u64 = 1;

const POP: u64 = 2;

const MODIFY: u64 = 3;

fn control_word(control: Control) -> u64
    ensures { result ≡ control_word control }
{
    match control {
        Control::Accept => both_halves(1, 0),
        Control::Shot => both_halves(2, 0),
        Control::Unspec => both_halves(3, 0),
        Control::Pipe => both_halves(4, 0),
        Control::Reclassify => both_halves(5, 0),
        Control::Jump(place) => both_halves(6, place),
        Control::Goto(chain) => both_halves(7, chain),
    }
}

fn vlan_words(op: VlanOp) -> [u64; 3]
    ensures { result ≡ vlan_words op }
{
    match op {
        VlanOp::Push { tpid, id, priority } => {
            [
                PUSH,
                both_halves(u32::from(id), u32::from(tpid)),
                u64::from(priority) + 1,
            ]
        }
        VlanOp::Pop => [POP, 0, 0],
        VlanOp::Modify { tpid, id, priority } => {
            [
                MODIFY,
                both_halves(u32::from(id), u32::from(tpid)),
                priority_word(priority),
            ]
        }
    }
}

// The priority plus 1, or 0.
fn priority_word(priority: Option<u8>) -> u64
    ensures { result ≡ plus_one priority }
{
    match priority {
        None => 0,
        Some(priority) => u64::from(priority) + 1,
    }
}

// The flag, where the number is given.
fn flag_of(flag: u64, number: Option<u32>) -> u64
    ensures { result ≡ flag_of flag number }
{
    match number {
        None => 0,
        Some(_) => flag,
    }
}

// The number, or 0.
fn number_of(number: Option<u32>) -> u32
    ensures { result ≡ number_of number }
{
    match number {
        None => 0,
        Some(number) => number,
    }
}

// The queue as a number of 32 bits.
fn wide(queue: Option<u16>) -> Option<u32>
    ensures { result ≡ queue }
{
    match queue {
        None => None,
        Some(queue) => Some(u32::from(queue)),
    }
}

fn skbedit_words(priority: Option<u32>, mark: Option<u32>, queue: Option<u16>) -> [u64; 3]
    ensures { result ≡ skbedit_words priority mark queue }
{
    let queue = wide(queue);
    [
        flag_of(1, priority) + flag_of(2, mark) + flag_of(4, queue),
        both_halves(number_of(priority), number_of(mark)),
        u64::from(number_of(queue)),
    ]
}

/// The words of parameters.
pub(crate) fn params_words(params: Params) -> [u64; 5]
    ensures words { result ≡ params_words params }
    ensures fit { FitParams params }
{
    match params {
        Params::Gact(control) => [GACT, control_word(control), 0, 0, 0],
        Params::Vlan(op, control) => {
            let words = vlan_words(op);
            [VLAN, control_word(control), words[0], words[1], words[2]]
        }
        Params::Skbedit {
            priority,
            mark,
            queue,
            control,
        } => {
            let words = skbedit_words(priority, mark, queue);
            [SKBEDIT, control_word(control), words[0], words[1], words[2]]
        }
    }
}

// The control of a word.
fn control_in(word: u64) -> Option<Control>
    ensures { result ≡ control_in word }
{
    let place = high_half(word);
    match low_half(word) {
        1 => Some(Control::Accept),
        2 => Some(Control::Shot),
        3 => Some(Control::Unspec),
        4 => Some(Control::Pipe),
        5 => Some(Control::Reclassify),
        6 => Some(Control::Jump(place)),
        7 => Some(Control::Goto(place)),
        _ => None,
    }
}

// The number less 1, where it isn't 0.
fn priority_in(word: u64) -> Option<u8>
    ensures { result ≡ priority_in word }
{
    if word == 0 {
        None
    } else {
        Some(((word - 1) % 256) as u8)
    }
}

// The number's low 16 bits.
fn low_quarter(number: u32) -> u16
    ensures { result ≡ number % 2 ^ 16 }
{
    (number % (1 << 16)) as u16
}

// What is done to a tag.
fn vlan_in(number: u64, tag: u64, priority: u64) -> Option<VlanOp>
    ensures { result ≡ vlan_in number tag priority }
{
    let tpid = low_quarter(high_half(tag));
    let id = low_quarter(low_half(tag));
    match number {
        PUSH => {
            Some(VlanOp::Push {
                tpid,
                id,
                priority: (priority.saturating_sub(1) % 256) as u8,
            })
        }
        POP => Some(VlanOp::Pop),
        MODIFY => {
            Some(VlanOp::Modify {
                tpid,
                id,
                priority: priority_in(priority),
            })
        }
        _ => None,
    }
}

// The number, where its flag is 1.
fn given_if(flag: u64, number: u32) -> Option<u32>
    ensures { result ≡ given_if flag number }
{
    if flag == 1 { Some(number) } else { None }
}

// What is set beside a packet's bytes.
fn skbedit_in(flags: u64, marks: u64, queue: u64, control: Control) -> Params
    ensures { result ≡ skbedit_in flags marks queue control }
{
    let given_queue = if flags / 4 % 2 == 1 {
        Some(low_quarter(low_half(queue)))
    } else {
        None
    };
    Params::Skbedit {
        priority: given_if(flags % 2, low_half(marks)),
        mark: given_if(flags / 2 % 2, high_half(marks)),
        queue: given_queue,
        control,
    }
}

// The parameters of five words, whether or not they have these words.
fn params_in(words: &[u64]) -> Option<Params>
    requires { length words.now ≡ 5 }
    ensures { result ≡ params_in words.now }
{
    let control = control_in(words[1])?;
    match words[0] {
        GACT => Some(Params::Gact(control)),
        VLAN => Some(Params::Vlan(vlan_in(words[2], words[3], words[4])?, control)),
        SKBEDIT => Some(skbedit_in(words[2], words[3], words[4], control)),
        _ => None,
    }
}

// The chain or the place is within the limit.
fn is_within(control: Control) -> bool
    ensures { IsTrue result ↔ IsControl control }
{
    match control {
        Control::Jump(place) => place <= CHAIN_MAX,
        Control::Goto(chain) => chain <= CHAIN_MAX,
        _ => true,
    }
}

fn are_storable(params: Params) -> bool
    ensures { IsTrue result ↔ AreStorable params }
{
    match params {
        Params::Gact(control) => is_within(control),
        Params::Vlan(_, control) => is_within(control),
        Params::Skbedit { control, .. } => is_within(control),
    }
}

// The parameters whose five words these are. What would be read is written again: so a bit that it doesn't
// have is not passed over.
pub(crate) fn read_params(words: &[u64]) -> Option<Params>
    requires { length words.now ≡ 5 }
    ensures { IsTheOnly (AreParamsIn words.now) result }
{
    let params = params_in(words)?;
    if are_storable(params) && params_words(params).as_slice() == words {
        Some(params)
    } else {
        None
    }
}
