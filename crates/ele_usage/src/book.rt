//! The book of usage: for each kind of policy, what the files with such a policy use.
//! A contract sees four records of sums, one for each kind.
ghost use Rattle.std.specs.Prelude.{◌≡◌, ◌≢◌, [], ◌∷◌};
ghost use Rattle.ele_policy.specs.declared.policy.Kind.{Kind};
ghost use Rattle.ele_policy.specs.declared.policy.Kind.TheVariants as kind;
ghost use Rattle.ele_usage.specs.Sums.{Fits};
ghost use Rattle.ele_usage.specs.Adding.{plus, nothing, IsWithin};
ghost use Rattle.ele_usage.specs.Book.{sums_of};
ghost use Rattle.ele_usage.specs.OnlyAt.{only_at};

use crate::usage::Usage;
use ele_policy::Kind;
use std::marker::Model;

/// For each kind of policy, what the files with a policy of that kind use. The calls take no
/// memory.
#[derive(Clone, Copy, Default, PartialEq, Eq)]
pub struct UsageBook {
    one: Usage,
    all: Usage,
    safe: Usage,
    landmarks: Usage,
}

impl Model for UsageBook {
    ghost use Rattle.ele_usage.specs.Book.{Book};
    ghost use Rattle.ele_usage.specs.Shown.{shown, fields_of};

    ghost Value = { Book };

    ghost view = { shown };

    ghost inverse = { fields_of };
}

impl UsageBook {
    /// Makes a book with all sums 0.
    pub fn new() -> UsageBook
        ensures { (k : Kind) → sums_of result k ≡ nothing }
    {
        UsageBook {
            one: Usage::default(),
            all: Usage::default(),
            safe: Usage::default(),
            landmarks: Usage::default(),
        }
    }

    /// Returns the sums of the kind.
    pub fn get(&self, kind: Kind) -> Usage
        ensures { result ≡ sums_of self.now kind }
    {
        match kind {
            Kind::One => self.one,
            Kind::All => self.all,
            Kind::Safe => self.safe,
            Kind::Landmarks => self.landmarks,
        }
    }

    /// Returns the sums of the four kinds, in the order of `Kind`.
    pub fn all(&self) -> [Usage; 4]
        ensures { result ≡ sums_of self.now kind.One ∷ sums_of self.now kind.All
            ∷ sums_of self.now kind.Safe ∷ sums_of self.now kind.Landmarks ∷ [] }
    {
        [self.one, self.all, self.safe, self.landmarks]
    }

    /// Adds to the sums of the kind. The caller keeps these within 64 bits.
    pub fn add(&mut self, kind: Kind, usage: Usage)
        requires { Fits (plus (sums_of self.old kind) usage) }
        ensures sums { sums_of self.new kind ≡ plus (sums_of self.old kind) usage }
        ensures others { (k : Kind) → k ≢ kind → sums_of self.new k ≡ sums_of self.old k }
        ensures each { (k : Kind)
            → sums_of self.new k ≡ plus (sums_of self.old k) (only_at kind usage k) }
    {
        self.set(kind, self.get(kind).plus(usage));
    }

    /// Subtracts from the sums of the kind. The caller knows that they are at least as large.
    pub fn sub(&mut self, kind: Kind, usage: Usage)
        requires { IsWithin usage (sums_of self.old kind) }
        ensures sums { plus (sums_of self.new kind) usage ≡ sums_of self.old kind }
        ensures others { (k : Kind) → k ≢ kind → sums_of self.new k ≡ sums_of self.old k }
        ensures each { (k : Kind)
            → plus (sums_of self.new k) (only_at kind usage k) ≡ sums_of self.old k }
    {
        self.set(kind, self.get(kind).minus(usage));
    }

    /// Moves what a file uses from one kind to the other, as its policy changes. The caller knows
    /// that the sums of the first kind are at least as large, and that those of the other stay
    /// within 64 bits. If the two are one kind, nothing changes.
    pub fn move_file(&mut self, from: Kind, to: Kind, usage: Usage)
        requires there { IsWithin usage (sums_of self.old from) }
        requires room { from ≢ to → Fits (plus (sums_of self.old to) usage) }
        ensures from { from ≢ to → plus (sums_of self.new from) usage ≡ sums_of self.old from }
        ensures to { from ≢ to → sums_of self.new to ≡ plus (sums_of self.old to) usage }
        ensures others { (k : Kind) → k ≢ from → k ≢ to → sums_of self.new k ≡ sums_of self.old k }
        ensures same { from ≡ to → self.new ≡ self.old }
        ensures each { (k : Kind) → plus (sums_of self.new k) (only_at from usage k)
            ≡ plus (sums_of self.old k) (only_at to usage k) }
    {
        if from == to {
            return;
        }
        self.sub(from, usage);
        self.add(to, usage);
    }

    // Replaces the sums of the kind.
    fn set(&mut self, kind: Kind, usage: Usage)
        ensures sums { sums_of self.new kind ≡ usage }
        ensures others { (k : Kind) → k ≢ kind → sums_of self.new k ≡ sums_of self.old k }
    {
        match kind {
            Kind::One => self.one = usage,
            Kind::All => self.all = usage,
            Kind::Safe => self.safe = usage,
            Kind::Landmarks => self.landmarks = usage,
        }
    }
}
