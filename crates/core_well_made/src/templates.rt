//! Templates that suit the pattern variables round them (libraries report 12.4).

ghost use Rattle.std.specs.Prelude.{◌≡◌, ◌+◌, ◌-◌, ◌++◌, ◌∷◌, [], ◌&&◌, nat_le, length, take, IfOk, OnOk};
ghost use Rattle.core_language.specs.Core.{cores};
ghost use Rattle.core_language.specs.CoreView.{inits, cases, clauses};
ghost use Rattle.core_language.specs.Pattern.{patterns};
ghost use Rattle.core_language.specs.PatternView.{elements_of, repeated_on};
ghost use Rattle.core_language.specs.TemplateView.{items};
ghost use Rattle.law_core.specs.Templates.{depths, all_depths, suits, items_suit, templates_suit, all_suit, inits_suit, cases_suit, clauses_suit};
ghost use Rattle.core_well_made.specs.Reach.{reach, items_reach, number_if};
ghost use Rattle.core_well_made.specs.Sets.{has_depth_of, output_suits, with_depth, with_depths};

use base_data::items::Items;
use base_data::map::{NameSet, new_set};
use base_data::memory::Memory;
use base_data::name::Label;
use core_language::code::{Clause, Code, Core, CoreNode, Init, Lambda};
use core_language::pattern::{Elements, Pattern, PatternNode, Repeated};
use core_language::template::{Template, TemplateItem, TemplateNode};
use std::alloc::Global;
use std::marker::Model;

/// Pattern variables, each with how many ellipses it stands under in its pattern, in the order of coming.
#[derive(Drop)]
pub struct DepthSet {
    alloc: Global,
    set: NameSet<(Label, u64)>,
}

impl Model for DepthSet {
    ghost use Rattle.law_core.specs.Templates.{Depths};

    ghost Value = { Depths };

    ghost view = { λ d. d.set.keys };
}

impl DepthSet {
    /// None. It takes no memory.
    pub fn new(alloc: Global) -> DepthSet
        ensures { result ≡ [] }
    {
        DepthSet {
            alloc,
            set: new_set(alloc),
        }
    }

    fn len(&self) -> usize
        ensures { result ≡ length self.now }
    {
        self.set.len()
    }

    fn truncate(&mut self, len: usize)
        ensures { self.new ≡ take len self.old }
    {
        self.set.truncate(len)
    }

    fn has(&self, label: &Label, depth: u64) -> Result<bool, Memory>
        ensures { IfOk result (λ b. b ≡ has_depth_of self.now (label.now, depth)) }
    {
        let label = label.share()?;
        Ok(self.set.contains(&(label, depth)))
    }

    fn add(&mut self, variable: (Label, u64)) -> Result<(), Memory>
        ensures { OnOk result (self.new ≡ with_depth self.old variable) }
    {
        match self.set.insert(variable) {
            Ok(_) => Ok(()),
            Err(_) => Err(Memory),
        }
    }

    fn add_each(&mut self, variables: Items<(Label, u64)>) -> Result<(), Memory>
        ensures { OnOk result (self.new ≡ with_depths self.old variables) }
    {
        for variable in variables.into_vec() {
            self.add(variable)?;
        }
        Ok(())
    }
}

fn sum(a: u64, b: u64) -> Result<u64, Memory>
    ensures { IfOk result (λ c. c ≡ a + b) }
{
    match a.checked_add(b) {
        Some(sum) => Ok(sum),
        None => Err(Memory),
    }
}

// Adds the pattern variables of a pattern that stands under so many ellipses, from left to right.
#[cycle(depths)]
#[tactic(auto, using(crate::proofs::Lists::joined))]
fn add_depths(all: &mut Items<(Label, u64)>, ellipses: u64, pattern: &Pattern) -> Result<(), Memory>
    ensures { OnOk result (all.new ≡ all.old ++ depths ellipses pattern.now) }
{
    match &pattern.node {
        PatternNode::Any | PatternNode::Literal(_) | PatternNode::Atom(_) => Ok(()),
        PatternNode::Variable(label) => {
            let label = label.share()?;
            all.push((label, ellipses))
        }
        PatternNode::List(elements, tail) => {
            add_elements(all, ellipses, elements)?;
            add_depths(all, ellipses, tail)
        }
        PatternNode::Vector(elements) => add_elements(all, ellipses, elements),
    }
}

#[cycle(depths)]
#[tactic(auto, using(crate::proofs::Lists::joined, crate::proofs::Lists::depths_on))]
fn add_elements(
    all: &mut Items<(Label, u64)>,
    ellipses: u64,
    elements: &Elements,
) -> Result<(), Memory>
    ensures { OnOk result (all.new ≡ all.old ++ all_depths ellipses (elements_of elements.now)) }
{
    add_patterns(all, ellipses, &elements.before)?;
    add_repeated(all, ellipses, &elements.repeated)
}

#[cycle(depths)]
#[tactic(auto, using(crate::proofs::Lists::joined))]
fn add_repeated(
    all: &mut Items<(Label, u64)>,
    ellipses: u64,
    repeated: &Option<Repeated>,
) -> Result<(), Memory>
    ensures { OnOk result (all.new ≡ all.old ++ all_depths ellipses (repeated_on repeated.now)) }
{
    match repeated {
        None => Ok(()),
        Some(repeated) => {
            let inner = sum(ellipses, 1)?;
            add_depths(all, inner, &repeated.pattern)?;
            add_patterns(all, ellipses, &repeated.after)
        }
    }
}

#[cycle(depths)]
#[tactic(auto, using(crate::proofs::Lists::joined))]
fn add_patterns(
    all: &mut Items<(Label, u64)>,
    ellipses: u64,
    list: &[Pattern],
) -> Result<(), Memory>
    ensures { OnOk result (all.new ≡ all.old ++ all_depths ellipses (patterns list.now)) }
{
    for pattern in list {
        add_depths(all, ellipses, pattern)?;
    }
    Ok(())
}

// Whether a variable of such a depth is one of these, and stands under at least as many ellipses. It reaches as far as its
// depth.
fn variable_suits(
    variables: &DepthSet,
    ellipses: u64,
    label: &Label,
    depth: u64,
) -> Result<Option<u64>, Memory>
    ensures { IfOk result (λ r. r ≡ number_if (has_depth_of variables.now (label.now, depth) && nat_le depth ellipses) depth) }
{
    if !variables.has(label, depth)? {
        return Ok(None);
    }
    if depth <= ellipses {
        Ok(Some(depth))
    } else {
        Ok(None)
    }
}

// How far a template reaches. There is no answer unless it suits these variables under so many ellipses: each variable is
// one of them and stands under at least as many ellipses as its depth, and each ellipsis has a variable of depth before it.
#[cycle(suits)]
#[tactic(auto, using(crate::proofs::Sets::deep_is_among, crate::proofs::Reach::no_number, crate::proofs::Reach::a_number, crate::proofs::Reach::the_number))]
fn suits(variables: &DepthSet, ellipses: u64, template: &Template) -> Result<Option<u64>, Memory>
    ensures { IfOk result (λ r. r ≡ number_if (suits variables.now ellipses template.now) (reach template.now)) }
{
    match &template.node {
        TemplateNode::Variable(label, depth) => {
            variable_suits(variables, ellipses, label, *depth as u64)
        }
        TemplateNode::Constant(_) => Ok(Some(0)),
        TemplateNode::List(items, tail) => {
            let Some(before) = items_suit(variables, ellipses, items)? else {
                return Ok(None);
            };
            let Some(behind) = suits(variables, ellipses, tail)? else {
                return Ok(None);
            };
            Ok(Some(before.max(behind)))
        }
        TemplateNode::Vector(items) => items_suit(variables, ellipses, items),
    }
}

// Ellipses behind a template take from how far it reaches. There is no answer where it doesn't reach the outermost.
fn shortened(reach: u64, ellipses: u64) -> Option<u64>
    ensures { result ≡ number_if (nat_le ellipses reach) (reach - ellipses) }
{
    if reach < ellipses {
        return None;
    }
    Some(reach - ellipses)
}

#[cycle(suits)]
#[tactic(auto, using(crate::proofs::Reach::no_number))]
fn item_suits(
    variables: &DepthSet,
    ellipses: u64,
    item: &TemplateItem,
) -> Result<Option<u64>, Memory>
    ensures { IfOk result (λ r. r ≡ number_if (items_suit variables.now ellipses (items (item.now ∷ []))) (reach item.now.template - item.now.ellipses)) }
{
    let own = item.ellipses as u64;
    let inner = sum(ellipses, own)?;
    let Some(reach) = suits(variables, inner, &item.template)? else {
        return Ok(None);
    };
    Ok(shortened(reach, own))
}

#[cycle(suits)]
#[tactic(auto, using(crate::proofs::Sets::items_suit_more, crate::proofs::Reach::no_number, crate::proofs::Reach::a_number, crate::proofs::Reach::the_number))]
fn items_suit(
    variables: &DepthSet,
    ellipses: u64,
    list: &[TemplateItem],
) -> Result<Option<u64>, Memory>
    ensures { IfOk result (λ r. r ≡ number_if (items_suit variables.now ellipses (items list.now)) (items_reach (items list.now))) }
{
    let mut furthest = 0;
    for item in list {
        let Some(reach) = item_suits(variables, ellipses, item)? else {
            return Ok(None);
        };
        furthest = reach.max(furthest);
    }
    Ok(Some(furthest))
}

#[tactic(auto, using(crate::proofs::Reach::no_number, crate::proofs::Reach::a_number))]
fn instance_suits(variables: &DepthSet, template: &Template) -> Result<bool, Memory>
    ensures { IfOk result (λ b. b ≡ suits variables.now 0 template.now) }
{
    match suits(variables, 0, template)? {
        Some(_) => Ok(true),
        None => Ok(false),
    }
}

/// Whether each template in core code suits the pattern variables round it. These are as before.
#[cycle(templates)]
pub(crate) fn templates_suit(variables: &mut DepthSet, core: &Core) -> Result<bool, Memory>
    ensures suit { IfOk result (λ b. b ≡ templates_suit variables.old core.now) }
    ensures kept { OnOk result (variables.new ≡ variables.old) }
{
    match &core.node {
        CoreNode::Quote(_) | CoreNode::Ref(_) | CoreNode::Prim(_) => Ok(true),
        CoreNode::If(test, then, None) => {
            if !templates_suit(variables, test)? {
                return Ok(false);
            }
            templates_suit(variables, then)
        }
        CoreNode::If(test, then, Some(other)) => {
            if !templates_suit(variables, test)? {
                return Ok(false);
            }
            if !templates_suit(variables, then)? {
                return Ok(false);
            }
            templates_suit(variables, other)
        }
        CoreNode::Set(_, value) => templates_suit(variables, value),
        CoreNode::Seq(parts) => all_suit(variables, parts),
        CoreNode::Lambda(code) => code_suits(variables, code),
        CoreNode::Letrec(_, inits, body) => {
            if !inits_suit(variables, inits)? {
                return Ok(false);
            }
            templates_suit(variables, body)
        }
        CoreNode::App(operator, operands) => {
            if !templates_suit(variables, operator)? {
                return Ok(false);
            }
            all_suit(variables, operands)
        }
        CoreNode::Syntax(template, _) => instance_suits(variables, template),
        CoreNode::SyntaxCase(subject, clauses, _) => {
            if !templates_suit(variables, subject)? {
                return Ok(false);
            }
            clauses_suit(variables, clauses)
        }
    }
}

#[cycle(templates)]
fn all_suit(variables: &mut DepthSet, parts: &[Core]) -> Result<bool, Memory>
    ensures suit { IfOk result (λ b. b ≡ all_suit variables.old (cores parts.now)) }
    ensures kept { OnOk result (variables.new ≡ variables.old) }
{
    for part in parts {
        if !templates_suit(variables, part)? {
            return Ok(false);
        }
    }
    Ok(true)
}

#[cycle(templates)]
fn inits_suit(variables: &mut DepthSet, list: &[Init]) -> Result<bool, Memory>
    ensures suit { IfOk result (λ b. b ≡ inits_suit variables.old (inits list.now)) }
    ensures kept { OnOk result (variables.new ≡ variables.old) }
{
    for init in list {
        if !templates_suit(variables, &init.value)? {
            return Ok(false);
        }
    }
    Ok(true)
}

#[cycle(templates)]
fn code_suits(variables: &mut DepthSet, code: &Code) -> Result<bool, Memory>
    ensures suit { IfOk result (λ b. b ≡ cases_suit variables.old code.now.cases) }
    ensures kept { OnOk result (variables.new ≡ variables.old) }
{
    cases_suit(variables, &code.cases)
}

#[cycle(templates)]
fn cases_suit(variables: &mut DepthSet, list: &[Lambda]) -> Result<bool, Memory>
    ensures suit { IfOk result (λ b. b ≡ cases_suit variables.old (cases list.now)) }
    ensures kept { OnOk result (variables.new ≡ variables.old) }
{
    for case in list {
        if !templates_suit(variables, &case.body)? {
            return Ok(false);
        }
    }
    Ok(true)
}

#[cycle(templates)]
#[tactic(auto, using(crate::proofs::Sets::clauses_suit_more))]
fn clauses_suit(variables: &mut DepthSet, list: &[Clause]) -> Result<bool, Memory>
    ensures suit { IfOk result (λ b. b ≡ clauses_suit variables.old (clauses list.now)) }
    ensures kept { OnOk result (variables.new ≡ variables.old) }
{
    for clause in list {
        if !clause_suits(variables, clause)? {
            return Ok(false);
        }
    }
    Ok(true)
}

// The pattern variables of a clause stand round its fender and its output.
#[cycle(templates)]
#[tactic(auto, using(crate::proofs::Sets::output_suits_inside, crate::proofs::Sets::with_depths_kept))]
fn clause_suits(variables: &mut DepthSet, clause: &Clause) -> Result<bool, Memory>
    ensures suit { IfOk result (λ b. b ≡ clauses_suit variables.old (clauses (clause.now ∷ []))) }
    ensures kept { OnOk result (variables.new ≡ variables.old) }
{
    let outer = variables.len();
    let mut own = Items::new(variables.alloc);
    add_depths(&mut own, 0, &clause.pattern)?;
    variables.add_each(own)?;
    let suit = output_suits(variables, clause)?;
    variables.truncate(outer);
    Ok(suit)
}

#[cycle(templates)]
fn output_suits(variables: &mut DepthSet, clause: &Clause) -> Result<bool, Memory>
    ensures suit { IfOk result (λ b. b ≡ output_suits variables.old clause.now.fender clause.now.output) }
    ensures kept { OnOk result (variables.new ≡ variables.old) }
{
    match &clause.fender {
        None => templates_suit(variables, &clause.output),
        Some(fender) => {
            if !templates_suit(variables, fender)? {
                return Ok(false);
            }
            templates_suit(variables, &clause.output)
        }
    }
}
