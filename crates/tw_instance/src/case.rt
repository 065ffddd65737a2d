//! Cases: an instance with its scenario.

ghost use Rattle.std.specs.Prelude.{◌≡◌, ◌↔◌, length, [], ◌∷◌, ◌++◌, IfOk, OnErr, OnOk, slice_get, List};
ghost use Rattle.tw_model.specs.declared.rule.Rule.{Rule as ARule};
ghost use Rattle.tw_model.specs.declared.limits.TheConstants.{LATEST_VERSION};
ghost use Rattle.tw_model.specs.Case.{IsCase, bare_case, opening_events};
ghost use Rattle.tw_model.specs.Rules.{case_fault, scene_fault};
ghost use Rattle.tw_instance.specs.Build.{TellsOf, judged_case, judged_scenario, judged_scenes};

use crate::instance::Instance;
use crate::refusal::{At, Item};
use crate::{opening, rules};
use std::alloc::{AllocError, Global};
use std::marker::Model;
use tw_event::Event;
use tw_model::{OrMemory, Rule, Scene, limits};

/// An instance with a scenario: failures and repairs of links, exchanges of ranks, and paths that are
/// forbidden and allowed. It has the version of the text that says it, and keeps every rule at any time.
#[derive(Drop, Debug)]
pub struct Case {
    version: u32,
    instance: Instance,
    scenario: Vec<Scene>,
    /// The opening events: the start of the origin, then those of each scene.
    opening: Vec<Event>,
}

impl Model for Case {
    ghost use Rattle.tw_model.specs.Case.{Case as ACase};

    ghost Value = { ACase };

    ghost use Rattle.tw_instance.specs.Opening.{IsOpened, case_of};

    ghost view = { case_of };

    ghost invariant = { IsOpened };
}

impl Case {
    /// A case of this instance with an empty scenario, in the latest version, which has every instance.
    pub fn new(alloc: Global, mut instance: Instance) -> Result<Case, AllocError>
        ensures { IfOk result (λ c. c ≡ bare_case instance) }
    {
        // Each instance keeps the rules, which this read tells.
        let _ = instance.nodes();
        instance.make_index(alloc)?;
        let opening = opening::start(alloc)?;
        Ok(Case {
            version: limits::LATEST_VERSION,
            instance,
            scenario: Vec::new(alloc),
            opening,
        })
    }

    /// Adds a scene, or tells the first rule that it breaks. The case is then in the latest version, which
    /// has every scene. An error leaves the case as it was.
    pub fn add(&mut self, scene: Scene) -> Result<(), OrMemory<Rule>>
        ensures ok { OnOk result (self.new ≡ record self.old { version = LATEST_VERSION; scenes = self.old.scenes ++ scene ∷ [] }) }
        ensures rule { (r : ARule) → (result ≡ Err (OrMemory.Fault r)) ↔ (scene_fault self.old.net (length self.old.scenes) scene ≡ Some r) }
        ensures kept { OnOk result (scene_fault self.old.net (length self.old.scenes) scene ≡ None) }
        ensures err { OnErr result (self.new ≡ self.old) }
    {
        let count = self.scenario.len();
        if let Some(rule) = rules::scene_fault(&self.instance, count, &scene) {
            return Err(OrMemory::Fault(rule));
        }
        self.scenario.reserve(1)?;
        opening::add(&mut self.opening, count as u64 + 1, &scene)?;
        self.scenario.push_reserved(scene);
        self.version = limits::LATEST_VERSION;
        Ok(())
    }

    /// Says in which version the case is, or tells the first rule that it breaks there. An error leaves
    /// the case as it was.
    pub fn set_version(&mut self, version: u32) -> Result<(), Rule>
        ensures ok { OnOk result (self.new ≡ record self.old { version = version }) }
        ensures rule { (r : ARule) → (result ≡ Err r) ↔ (case_fault version self.old.net self.old.scenes ≡ Some r) }
        ensures kept { OnOk result (case_fault version self.old.net self.old.scenes ≡ None) }
        ensures err { OnErr result (self.new ≡ self.old) }
    {
        if let Some(rule) = rules::case_fault(version, &self.instance, &self.scenario) {
            return Err(rule);
        }
        self.version = version;
        Ok(())
    }

    /// A case of this instance with these scenes, in this version. Scenes are judged in the order given,
    /// and then the whole case; an error names the first that breaks a rule, or the start or one before it
    /// for which memory was refused.
    pub fn build(
        alloc: Global,
        version: u32,
        instance: Instance,
        scenes: Vec<Scene>,
    ) -> Result<Case, At>
        ensures ok { IfOk result (λ c. c ≡ record { version = version; net = instance; scenes = scenes.items }) }
        ensures told { TellsOf result (judged_case version instance scenes.items) }
    {
        let mut case = match Case::new(alloc, instance) {
            Ok(case) => case,
            Err(error) => {
                let item = Item::Start;
                let fault = error.into();
                return Err(At { item, fault });
            }
        };
        case.fill(version, &scenes)?;
        Ok(case)
    }

    /// Adds these scenes to none, and then says the version.
    fn fill(&mut self, version: u32, scenes: &[Scene]) -> Result<(), At>
        requires { self.old ≡ bare_case self.old.net }
        ensures ok { OnOk result (self.new ≡ record { version = version; net = self.old.net; scenes = scenes.now }) }
        ensures told { TellsOf result (judged_scenario version self.old.net scenes.now) }
    {
        self.add_all(scenes)?;
        if let Err(rule) = self.set_version(version) {
            let item = Item::Whole;
            let fault = OrMemory::Fault(rule);
            return Err(At { item, fault });
        }
        Ok(())
    }

    /// Adds these scenes to none.
    fn add_all(&mut self, scenes: &[Scene]) -> Result<(), At>
        requires { self.old ≡ bare_case self.old.net }
        ensures ok { OnOk result (self.new ≡ record { version = LATEST_VERSION; net = self.old.net; scenes = scenes.now }) }
        ensures told { TellsOf result (judged_scenes self.old.net 0 scenes.now) }
    {
        for (i, scene) in scenes.iter().enumerate() {
            if let Err(fault) = self.add(*scene) {
                let item = Item::Scene(i + 1);
                return Err(At { item, fault });
            }
        }
        Ok(())
    }

    /// The version of the text of the case, 1 or 2. Version 1 has links with one delay for both directions
    /// alone, and no scene that forbids or allows a path.
    pub fn version(&self) -> u32
        ensures value { result ≡ self.now.version }
        ensures case { IsCase self.now }
    {
        self.version
    }

    /// The instance.
    pub fn instance(&self) -> &Instance
        ensures value { result.now ≡ self.now.net }
        ensures case { IsCase self.now }
    {
        &self.instance
    }

    /// The scenes, as they were given.
    pub fn scenario(&self) -> &[Scene]
        ensures value { result.now ≡ self.now.scenes }
        ensures case { IsCase self.now }
    {
        &self.scenario
    }

    /// Opening event number `k`, from 0: the start of the origin, then those of each scene in turn, of a
    /// failure or a repair one at each end. `None` past the last.
    pub fn opening(&self, k: usize) -> Option<Event>
        ensures { result ≡ slice_get (opening_events self.now.scenes) k }
    {
        self.opening.get(k).copied()
    }

    /// The opening events: the start of the origin, then those of each scene in turn, of a failure or a
    /// repair one at each end.
    pub fn openings(&self) -> &[Event]
        ensures value { result.now ≡ opening_events self.now.scenes }
        ensures case { IsCase self.now }
    {
        &self.opening
    }
}
