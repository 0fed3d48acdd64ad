//! What a certificate says of a plan. Nodes, columns, facts and traces are named by their numbers
//! from 0; a number may be any `u64`, and whether it names something is for the check of the
//! certificate against a plan.

ghost use Rattle.std.specs.Prelude.{◌≡◌, if◌then◌else◌};
ghost use Rattle.std.specs.Int.{from_le_bytes, w64};
ghost use Rattle.wd_certificate.specs.declared.certificate.Target.{Target as SpecTarget};
ghost use Rattle.wd_certificate.specs.declared.certificate.Target.TheVariants as target;

use std::marker::Model;

/// What a kept fact determines.
#[derive(Clone, Copy)]
pub enum Target {
    /// A column of the node's output.
    Column(u64),
    /// The row: rows that agree on the trace's columns are one row.
    Row,
}

/// A target as a list of many holds it, in 9 bytes where a `Target` takes 16: a text may have one in every two bytes.
#[derive(Drop)]
pub struct PackedTarget {
    column: [u8; 8],
    is_row: bool,
}

impl Model for PackedTarget {
    ghost Value = { SpecTarget };

    ghost view = { λ t. if t.is_row then target.Row else target.Column (from_le_bytes w64 t.column) };
}

impl PackedTarget {
    pub fn new(target: Target) -> PackedTarget
        ensures { result ≡ target }
    {
        match target {
            Target::Column(column) => PackedTarget {
                column: column.to_le_bytes(),
                is_row: false,
            },
            Target::Row => PackedTarget {
                column: [0; 8],
                is_row: true,
            },
        }
    }

    pub fn target(&self) -> Target
        ensures { result ≡ self.now }
    {
        if self.is_row {
            Target::Row
        } else {
            Target::Column(u64::from_le_bytes(self.column))
        }
    }
}

/// A derivation by dependency steps.
#[derive(Drop)]
pub struct Trace {
    /// The columns from which it starts.
    pub from: Vec<u64>,
    /// The facts given at the node that it uses, in this order. When a fact is used, its left side must be reached; its right side is
    /// reached from then on.
    pub uses: Vec<u64>,
}

/// A fact that a node keeps, which is given at the node above.
#[derive(Drop)]
pub struct Kept {
    /// What the trace's columns determine.
    pub to: Vec<PackedTarget>,
    /// The number of the trace that reaches it, among the node's.
    pub trace: u64,
}

/// The rule that justifies a window call, with the number of its trace among the node's.
#[derive(Clone, Copy)]
pub enum Rule {
    /// Rows that tie have one value.
    Peers,
    /// The class's columns determine the row.
    Unique(u64),
    /// The class's columns determine the argument.
    Values(u64),
    /// The class's columns determine every column of the Window's input.
    Exchange(u64),
}

/// What a certificate says of one node of a plan.
#[derive(Drop)]
pub struct Node {
    /// A rule for each call of a Window; empty at another node.
    pub calls: Vec<Rule>,
    /// The facts that it keeps, in the order in which they are given above.
    pub keep: Vec<Kept>,
    /// The trace of a Limit that is justified by its sort keys; `None` at another node, or where another rule justifies it.
    pub limit: Option<u64>,
    pub traces: Vec<Trace>,
}

/// The version of a certificate, which says for which plans the certificate may be made.
#[derive(Clone, Copy)]
pub enum Version {
    /// For plans without groups.
    One,
    /// For every plan.
    Two,
}

/// A certificate: what justifies each call and each limit of a plan.
#[derive(Drop)]
pub struct Certificate {
    /// The plan's nodes in postorder.
    pub nodes: Vec<Node>,
    pub version: Version,
}
