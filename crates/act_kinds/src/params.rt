//! Actions and their parameters.
ghost use Rattle.std.specs.Prelude.{◌≡◌};
ghost use Rattle.act_kinds.specs.Params.{kind_of, number_of_kind, with_control};

/// The kinds of actions, by the modules of tc that they are named after (tc-actions(8)).
#[derive(Clone, Copy, Debug, PartialEq, Eq, PartialOrd, Ord)]
pub enum Kind {
    /// A control and nothing else.
    Gact,
    /// Puts, removes or changes a VLAN tag (tc-vlan(8)).
    Vlan,
    /// Sets what a packet carries beside its bytes (tc-skbedit(8)).
    Skbedit,
}

/// How a list of actions goes on after an action (tc-actions(8), CONTROL; jump and goto chain are those of
/// the kernel's include/uapi/linux/pkt_cls.h).
#[derive(Clone, Copy, Debug, PartialEq, Eq)]
pub enum Control {
    /// `ok`: the packet passes.
    Accept,
    /// `drop`: the packet is dropped.
    Shot,
    /// `continue`: the next table is tried.
    Unspec,
    /// `pipe`: the next action of the list runs.
    Pipe,
    /// `reclassify`: the walk begins anew at chain 0.
    Reclassify,
    /// `jump`: the action at that place of the list runs, counted from 0.
    Jump(u32),
    /// `goto chain`: the walk begins anew at that chain.
    Goto(u32),
}

/// What is done to the outermost VLAN tag (IEEE 802.1Q, clause 9.6). An `id` has 12 bits and a `priority` 3;
/// a `tpid` is the EtherType of the tag.
#[derive(Clone, Copy, Debug, PartialEq, Eq)]
pub enum VlanOp {
    Push {
        tpid: u16,
        id: u16,
        priority: u8,
    },
    Pop,
    /// Changes the tag that is there. Without a priority, the tag keeps its own.
    Modify {
        tpid: u16,
        id: u16,
        priority: Option<u8>,
    },
}

/// What an action does, and the control that it gives.
#[derive(Clone, Copy, Debug, PartialEq, Eq)]
pub enum Params {
    Gact(Control),
    Vlan(VlanOp, Control),
    /// Sets the class, the mark and the queue of a packet, where given.
    Skbedit {
        priority: Option<u32>,
        mark: Option<u32>,
        queue: Option<u16>,
        control: Control,
    },
}

impl Kind {
    /// The number of the kind: gact 1, vlan 2, skbedit 3.
    pub fn number(self) -> u32
        ensures { result ≡ number_of_kind self }
    {
        match self {
            Kind::Gact => 1,
            Kind::Vlan => 2,
            Kind::Skbedit => 3,
        }
    }
}

impl Params {
    /// The kind of an action with these parameters.
    pub fn kind(self) -> Kind
        ensures { result ≡ kind_of self }
    {
        match self {
            Params::Gact(_) => Kind::Gact,
            Params::Vlan(_, _) => Kind::Vlan,
            Params::Skbedit { .. } => Kind::Skbedit,
        }
    }

    /// The same parameters with another control.
    pub fn with_control(self, control: Control) -> Params
        ensures { result ≡ with_control self control }
    {
        match self {
            Params::Gact(_) => Params::Gact(control),
            Params::Vlan(op, _) => Params::Vlan(op, control),
            Params::Skbedit {
                priority,
                mark,
                queue,
                ..
            } => {
                Params::Skbedit {
                    priority,
                    mark,
                    queue,
                    control,
                }
            }
        }
    }
}
