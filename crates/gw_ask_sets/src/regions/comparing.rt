//! What two policies decide otherwise.
ghost use Rattle.std.specs.Prelude.{◌≡◌, ◌≤◌, ◌<◌, ◌+◌, ◌++◌, ◌∷◌, ◌&&◌, [], ℕ, Bool, true, Ok, IfOk, OnOk, List, length};
ghost use Rattle.gw_rules.specs.Ask.{Ask};
ghost use Rattle.gw_rules.specs.Rule.{matches};
ghost use Rattle.gw_rules.specs.declared.field.TheConstants.FieldName.{ALL};
ghost use Rattle.gw_ask_sets.specs.regions.Comparing.{AreDeciders, AreSame, IsComparison};
ghost use Rattle.gw_ask_sets.specs.regions.Deciding.{decided_by};
ghost use Rattle.gw_ask_sets.specs.regions.Regions.{Region as SpecRegion, inside, lies, lies_in_one, pieces};
ghost use Rattle.gw_ask_sets.specs.regions.Steps.{IsBeginning, IsCounted, IsReached, IsSettled, stage};
ghost use Rattle.gw_ask_sets.specs.regions.internal.Looking.{AreDeciding, IsLook};
ghost use Rattle.gw_rules.specs.declared.rule.Rule.{Rule as SpecRule};

use crate::regions::comparison::{Comparison, Found, Taken};
use crate::regions::deciders::deciders_of;
use crate::regions::deciding::{Deciding, deciding_of};
use crate::regions::meeting::{ask_within, region_over};
use crate::regions::ranges::same_ranges;
use crate::regions::region::{Region, part_fields};
use gw_rules::{FieldName, Rule};
use std::alloc::{AllocError, Global};

/// How many steps a comparison is given: enough for two policies of 512 rules that people write.
pub const MAX_STEPS: u32 = 65_536;

/// Two policies, and the shapes of the asks over which they are compared.
#[derive(Clone, Copy)]
pub struct Policies<'a> {
    /// The rules of the old policy.
    pub old: &'a [Rule],
    /// Those of the new one.
    pub new: &'a [Rule],
    /// The asks of these shapes count.
    pub shapes: &'a [Region],
}

/// Whether two rules say the same, and are seen to match the same asks.
fn same(a: &Rule, b: &Rule) -> bool
    ensures says { result ≡ true → a.now.allow ≡ b.now.allow }
    ensures matches { result ≡ true → (ask : Ask) → matches a.now ask ≡ matches b.now ask }
{
    a.allow == b.allow && same_fields(a, b)
}

fn same_fields(a: &Rule, b: &Rule) -> bool
    ensures { result ≡ true → (ask : Ask) → matches a.now ask ≡ matches b.now ask }
{
    for field in FieldName::ALL.iter() {
        if !same_ranges(a.ranges(*field).as_slice(), b.ranges(*field).as_slice()) {
            return false;
        }
    }
    true
}

fn same_at(old: &[Rule], a: usize, new: &[Rule], b: usize) -> bool
    ensures { result ≡ true → AreSame old.now a new.now b }
{
    let Some(one) = old.get(a) else {
        return false;
    };
    let Some(two) = new.get(b) else {
        return false;
    };
    same(one, two)
}

/// Whether two policies are seen to decide alike.
fn are_same(old: &[Rule], p: &Deciding, new: &[Rule], q: &Deciding) -> bool
    ensures { result ≡ true → (ask : Ask) →
        decided_by old.now p.now.places.items p.now.otherwise ask
        ≡ decided_by new.now q.now.places.items q.now.otherwise ask }
{
    if p.places.len() != q.places.len() || p.otherwise != q.otherwise {
        return false;
    }
    for index in 0..p.places.len() {
        if !same_at(old, p.places[index], new, q.places[index]) {
            return false;
        }
    }
    true
}

/// The result of a look at a region.
#[derive(Clone, Copy)]
enum Look {
    /// The two policies decide each of its asks alike.
    Alike,
    /// They decide each otherwise, and this is what the new one says.
    Unlike(bool),
    /// It is to be parted by the old rule at this place.
    PartByOld(usize),
    /// It is to be parted by the new rule at this place.
    PartByNew(usize),
}

/// Where the rules that decide are the same: by the first of all to part a region, or what the verdicts say if there
/// is none.
fn look_by_first(p: &Deciding, q: &Deciding) -> Look
    ensures { (old new : List SpecRule) (region : SpecRegion) →
        AreDeciding old region p.now.places.items p.now.otherwise →
        AreDeciding new region q.now.places.items q.now.otherwise → IsLook old new region result }
{
    let count = p.places.len();
    if 0 < count {
        return Look::PartByOld(p.places[count - 1]);
    }
    let count = q.places.len();
    if 0 < count {
        return Look::PartByNew(q.places[count - 1]);
    }
    if p.otherwise == q.otherwise {
        Look::Alike
    } else {
        Look::Unlike(q.otherwise)
    }
}

/// By which rule to part a region: the first in which the two policies aren't seen to be the same.
fn choice(old: &[Rule], p: &Deciding, new: &[Rule], q: &Deciding) -> Look
    ensures { (region : SpecRegion) →
        AreDeciding old.now region p.now.places.items p.now.otherwise →
        AreDeciding new.now region q.now.places.items q.now.otherwise → IsLook old.now new.now region result }
{
    let mut a = p.places.len();
    let mut b = q.places.len();
    for _ in 0..old.len() {
        if a == 0 || b == 0 || !same_at(old, p.places[a - 1], new, q.places[b - 1]) {
            break;
        }
        a -= 1;
        b -= 1;
    }
    if 0 < b {
        return Look::PartByNew(q.places[b - 1]);
    }
    if 0 < a {
        return Look::PartByOld(p.places[a - 1]);
    }
    look_by_first(p, q)
}

/// What two policies decide in a region.
fn look_at(alloc: Global, old: &[Rule], new: &[Rule], region: &Region) -> Result<Look, AllocError>
    ensures { IfOk result (λ look. IsLook old.now new.now region.now look) }
{
    let p = deciding_of(alloc, old, region)?;
    let q = deciding_of(alloc, new, region)?;
    if are_same(old, &p, new, &q) {
        return Ok(Look::Alike);
    }
    Ok(choice(old, &p, new, &q))
}

/// Parts a region that was taken up by a rule, and puts all parts back.
fn put_parts(
    alloc: Global,
    comparison: &mut Comparison,
    taken: Taken,
    rule: &Rule,
) -> Result<(), AllocError>
    ensures found { OnOk result (comparison.new.found.items ≡ comparison.old.found.items) }
    ensures left { OnOk result (comparison.new.left.items ≡
        comparison.old.left.items ++ (pieces ALL rule.now taken.region ++ inside ALL rule.now taken.region ∷ [])) }
{
    let mut region = taken.into_region();
    part_fields(alloc, &mut comparison.left, rule, &mut region)?;
    comparison.left.push(region)?;
    Ok(())
}

/// A region in which the new policy alone says this, and the rules that decide there.
fn found_of(
    alloc: Global,
    old: &[Rule],
    new: &[Rule],
    taken: Taken,
    allows: bool,
) -> Result<Found, AllocError>
    ensures found { IfOk result (λ f. (f.region ≡ taken.region) × (f.ask ≡ taken.ask) × (f.allows ≡ allows)) }
    ensures old { IfOk result (λ f. AreDeciders old.now taken.region f.old_rules.items) }
    ensures new { IfOk result (λ f. AreDeciders new.now taken.region f.new_rules.items) }
{
    let old_rules = deciders_of(alloc, old, &taken.region)?;
    let new_rules = deciders_of(alloc, new, &taken.region)?;
    Ok(taken.into_found(allows, old_rules, new_rules))
}

/// Looks at a region that was taken up, and one of whose asks lies in a shape.
fn look_up(
    alloc: Global,
    old: &[Rule],
    new: &[Rule],
    taken: Taken,
    comparison: &mut Comparison,
) -> Result<(), AllocError>
    ensures { OnOk result ((shapes : List SpecRegion) →
        (lies taken.region taken.ask && lies_in_one shapes taken.ask) ≡ true →
        IsSettled shapes old.now new.now taken.region (stage comparison.old.found.items comparison.old.left.items)
        (stage comparison.new.found.items comparison.new.left.items)) }
{
    match look_at(alloc, old, new, &taken.region)? {
        Look::Alike => Ok(()),
        Look::Unlike(allows) => {
            let found = found_of(alloc, old, new, taken, allows)?;
            comparison.put_found(found)?;
            Ok(())
        }
        Look::PartByOld(place) => {
            put_parts(alloc, comparison, taken, &old[place])?;
            Ok(())
        }
        Look::PartByNew(place) => {
            put_parts(alloc, comparison, taken, &new[place])?;
            Ok(())
        }
    }
}

/// Looks at a region that was taken up if a shape meets it, and leaves it out else.
fn settle(
    alloc: Global,
    policies: &Policies<'_>,
    region: Region,
    comparison: &mut Comparison,
) -> Result<(), AllocError>
    ensures { OnOk result (
        IsSettled policies.now.shapes.now policies.now.old.now policies.now.new.now region
        (stage comparison.old.found.items comparison.old.left.items)
        (stage comparison.new.found.items comparison.new.left.items)) }
{
    match ask_within(&region, policies.shapes) {
        None => Ok(()),
        Some(ask) => {
            let taken = Taken { region, ask };
            look_up(alloc, policies.old, policies.new, taken, comparison)
        }
    }
}

impl Comparison {
    /// The beginning of a comparison over the asks of these shapes, whatever the policies: no step is used,
    /// nothing is found, and one region is left, which has every ask of the shapes. An `Err` if there is no memory.
    pub fn begin(alloc: Global, shapes: &[Region]) -> Result<Self, AllocError>
        ensures comparison { IfOk result (λ c. (old new : List SpecRule) →
            IsComparison shapes.now old new c.found.items c.left.items) }
        ensures beginning { IfOk result (λ c. IsBeginning shapes.now (stage c.found.items c.left.items)) }
        ensures found { IfOk result (λ c. c.found.items ≡ []) }
        ensures steps { IfOk result (λ c. c.steps ≡ 0) }
    {
        let start = region_over(alloc, shapes)?;
        Comparison::new(alloc, start)
    }

    /// Goes on with the comparison, which is to be one of these policies and shapes, by at most so many steps: each
    /// takes up the last region that is left, and it counts exactly the steps that it takes. It is a comparison of them
    /// after that, and it is finished if fewer steps were used. It takes no step after 2^32 - 1 in all. An `Err` if
    /// there is no memory: what was found may be lost then.
    pub fn go_on(
        &mut self,
        alloc: Global,
        policies: &Policies<'_>,
        steps: u32,
    ) -> Result<(), AllocError>
        ensures comparison { OnOk result (
            IsComparison policies.now.shapes.now policies.now.old.now policies.now.new.now
            self.old.found.items self.old.left.items →
            IsComparison policies.now.shapes.now policies.now.old.now policies.now.new.now
            self.new.found.items self.new.left.items) }
        ensures counted { OnOk result (
            IsCounted policies.now.shapes.now policies.now.old.now policies.now.new.now
            (stage self.old.found.items self.old.left.items) (stage self.new.found.items self.new.left.items)
            self.old.steps self.new.steps) }
        ensures least { OnOk result (self.old.steps ≤ self.new.steps) }
        ensures most { OnOk result (self.new.steps ≤ self.old.steps + steps) }
        ensures finished { OnOk result (self.new.steps < self.old.steps + steps → self.new.steps < 4294967295 →
            self.new.left.items ≡ []) }
    {
        self.take_steps(alloc, policies, steps)
    }

    /// Takes at most so many steps, and counts them.
    fn take_steps(
        &mut self,
        alloc: Global,
        policies: &Policies<'_>,
        steps: u32,
    ) -> Result<(), AllocError>
        ensures counted { OnOk result (
            IsCounted policies.now.shapes.now policies.now.old.now policies.now.new.now
            (stage self.old.found.items self.old.left.items) (stage self.new.found.items self.new.left.items)
            self.old.steps self.new.steps) }
        ensures least { OnOk result (self.old.steps ≤ self.new.steps) }
        ensures most { OnOk result (self.new.steps ≤ self.old.steps + steps) }
        ensures finished { OnOk result (self.new.steps < self.old.steps + steps → self.new.steps < 4294967295 →
            self.new.left.items ≡ []) }
    {
        let before = self.steps;
        let rest = u32::MAX - before;
        let most = if steps < rest { steps } else { rest };
        for used in 0..most {
            let Some(region) = self.take_last() else {
                self.steps = before + used;
                return Ok(());
            };
            settle(alloc, policies, region, self)?;
        }
        self.steps = before + most;
        Ok(())
    }
}

/// Compares two policies over the asks of these shapes, in at most so many steps. What is found are
/// regions in which every ask is decided otherwise, each with one of its asks that lies in a shape, and with
/// the rules that decide there. An ask of the shapes is decided otherwise exactly if it lies in one of these
/// regions, or in one that is left and is decided otherwise there. If none is left, all are found; some are
/// left only if all steps were used. An `Err` if there is no memory.
pub fn compare(
    alloc: Global,
    old: &[Rule],
    new: &[Rule],
    shapes: &[Region],
    steps: u32,
) -> Result<Comparison, AllocError>
    ensures comparison { IfOk result (λ c. IsComparison shapes.now old.now new.now c.found.items c.left.items) }
    ensures reached { IfOk result (λ c.
        IsReached shapes.now old.now new.now c.steps (stage c.found.items c.left.items)) }
    ensures steps { IfOk result (λ c. c.steps ≤ steps) }
    ensures finished { IfOk result (λ c. c.steps < steps → c.left.items ≡ []) }
{
    let mut comparison = Comparison::begin(alloc, shapes)?;
    comparison.go_on(alloc, &Policies { old, new, shapes }, steps)?;
    Ok(comparison)
}
