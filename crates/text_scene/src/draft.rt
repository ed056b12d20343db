// What the settings that were read so far say.
ghost use Rattle.std.specs.Prelude.{◌≡◌, ◌++◌, ◌∷◌, [], if◌then◌else◌, bytes_eq, codes, IfOk, None, false};
ghost use Rattle.scene_syntax.specs.Project.{is_version, or_first};
ghost use Rattle.scene_syntax.specs.Lines as line;
ghost use Rattle.text_scene.specs.LineParts.{line_of};
ghost use Rattle.text_scene.specs.Drafts.{start, section_of, step, with_setting};

use crate::characters::is_word;
use crate::lines::Line;
use gd_syntax::{FaultKind, LoadFault, Name, Place, Text};
use scene_syntax::AutoloadLine;
use std::alloc::{AllocError, Global};
use tree_lists::Items;

/// The section that a line stands in.
#[derive(Clone, Copy, Drop)]
pub enum Section {
    Application,
    Autoload,
    Other,
}

/// What is known behind some lines: the last main scene's value, and the first fault.
#[derive(Drop)]
pub struct Draft {
    pub has_version: bool,
    pub fault: Option<LoadFault>,
    pub section: Section,
    pub main: Option<Text>,
    pub autoloads: Items<AutoloadLine>,
}

fn section_of(name: &Name) -> Section
    ensures { result ≡ section_of name.now }
{
    if name.is_word("application") {
        Section::Application
    } else if name.is_word("autoload") {
        Section::Autoload
    } else {
        Section::Other
    }
}

fn is_version(key: &Name, value: &Text) -> bool
    ensures { result ≡ is_version (line.setting key.now value.now) }
{
    key.is_word("config_version") && is_word(value, "5")
}

/// The fault of a line that is broken.
fn line_fault(number: u32) -> LoadFault
    ensures { result ≡ record { kind = FaultKind.SceneSyntax; place = record { line = number; column = 1 } } }
{
    LoadFault {
        kind: FaultKind::SceneSyntax,
        place: Place {
            line: number,
            column: 1,
        },
    }
}

impl Draft {
    pub fn new(alloc: Global) -> Draft
        ensures { result ≡ start }
    {
        Draft {
            has_version: false,
            fault: None,
            section: Section::Other,
            main: None,
            autoloads: Items::new(alloc),
        }
    }

    /// The first fault counts.
    fn refuse(&mut self, fault: LoadFault)
        ensures { self.new ≡ record self.old { fault = or_first self.old.fault (Some fault) } }
    {
        match self.fault {
            Some(_) => {}
            None => self.fault = Some(fault),
        }
    }

    fn add_setting(&mut self, key: Name, value: Text, number: u32) -> Result<(), AllocError>
        ensures { IfOk result (λ _. self.new ≡ with_setting self.old number key value) }
    {
        if is_version(&key, &value) {
            self.has_version = true;
        }
        match self.section {
            Section::Application => {
                if key.is_word("run/main_scene") {
                    self.main = Some(value);
                }
                Ok(())
            }
            Section::Autoload => self.autoloads.push(AutoloadLine {
                key,
                value,
                line: number,
            }),
            Section::Other => Ok(()),
        }
    }

    /// Takes the next line, behind which there may be a byte that is no UTF-8.
    pub fn add(&mut self, line: Line, number: u32, bad: Option<LoadFault>) -> Result<(), AllocError>
        ensures { IfOk result (λ _. self.new ≡ step bad self.old number (line_of line)) }
    {
        match line {
            Line::Nothing => {}
            Line::Section(name) => self.section = section_of(&name),
            Line::Setting(key, value) => return self.add_setting(key, value, number),
            Line::Broken => self.refuse(line_fault(number)),
            Line::Unfinished => self.refuse(bad.unwrap_or(line_fault(number))),
        }
        Ok(())
    }
}
