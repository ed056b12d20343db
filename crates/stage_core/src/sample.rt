//! The work of the tests: a star, in which the first of three files links to the others, and a tangle of four files.
//! There files 0 and 1 link to each other and 1 links to 2, which stage 3 refuses; file 3 has no links.
ghost use Rattle.std.specs.Prelude.{◌≡◌, [], IfOk, codes};
ghost use Rattle.stage_core.specs.Sample.{sample_links, done_stages};

use crate::stage_work::StageWork;
use crate::work::{Need, Outcome, StageOut};
use gd_syntax::{FaultKind, LoadFault, PathError, Place, ResPath};
use std::alloc::{AllocError, Global};
use std::sync::Arc;

#[derive(Drop)]
pub struct Sample {
    pub tangled: bool,
}

#[derive(Drop)]
pub struct SampleOut {
    pub file: u32,
    pub stage: u8,
    pub links: Vec<u32>,
    pub walk: Vec<u32>,
}

impl StageOut for SampleOut {
    ghost use Rattle.stage_core.specs.Sample.{sample_files, sample_links, sample_path, sample_value, links_below, none_below, none_linked, absent_later, stopped_before, blocked_at, paths_up};

    type Project = Sample;

    ghost files = { λ p. sample_files p.tangled };

    ghost path = { λ _ file. sample_path file };

    ghost value = { λ p. sample_value p.tangled };

    ghost holds = { λ p file stage out. (out.file ≡ file) × (out.stage ≡ stage) × (out.links.items ≡ sample_links p.tangled file) × (out.walk.items ≡ []) };

    ghost file_links = { λ p. sample_links p.tangled };

    ghost file_walk = { λ _ _. [] };

    ghost links = { λ out. out.links.items };

    ghost walk = { λ out. out.walk.items };

    fn links(&self) -> &[u32] {
        self.links.as_slice()
    }

    fn walk(&self) -> &[u32] {
        self.walk.as_slice()
    }

    ghost links_of_value = { λ p f x h. h.2 };

    ghost walk_of_value = { λ p f x h. h.3 };

    ghost links_in_range = { λ p f g c. links_below p.tangled f g c };

    ghost walk_in_range = { λ p f g c. none_below (sample_files p.tangled) g c };

    ghost walk_within_links = { λ p f g c. none_linked f g (sample_links p.tangled f) c };

    ghost absent_after = { λ p f j k l one less five bad. absent_later p.tangled f j k less bad };

    ghost absent_only_after = { λ p f k l one five e. stopped_before p.tangled f k l e };

    ghost blocked_by = { λ p f k l one five e. blocked_at p.tangled f k l one five e };

    ghost paths_ascend = { λ p f h l m. paths_up p.tangled f h l m };
}

/// The fault of file 2 of the tangle.
pub const FAULT: LoadFault = LoadFault {
    kind: FaultKind::Unreadable,
    place: Place { line: 3, column: 1 },
};

fn links_of(alloc: Global, tangled: bool, file: u32) -> Result<Vec<u32>, AllocError>
    ensures { IfOk result (λ links. links.items ≡ sample_links tangled file) }
{
    let mut links = Vec::new(alloc);
    if tangled {
        if file == 0 {
            links.push(1)?;
        } else if file == 1 {
            links.push(0)?;
            links.push(2)?;
        }
    } else if file == 0 {
        links.push(1)?;
        links.push(2)?;
    }
    Ok(links)
}

#[derive(Drop)]
pub struct SampleWork {
    project: Sample,
    a: ResPath,
    b: ResPath,
    c: ResPath,
    d: ResPath,
    ghost a_is: { a ≡ codes "res://a.gd" },
    ghost b_is: { b ≡ codes "res://b.gd" },
    ghost c_is: { c ≡ codes "res://c.gd" },
    ghost d_is: { d ≡ codes "res://d.gd" },
}

impl SampleWork {
    pub fn new(alloc: Global, tangled: bool) -> Result<SampleWork, PathError>
        ensures { IfOk result (λ work. work.project.tangled ≡ tangled) }
    {
        Ok(SampleWork {
            project: Sample { tangled },
            a: ResPath::new(alloc, "res://a.gd")?,
            b: ResPath::new(alloc, "res://b.gd")?,
            c: ResPath::new(alloc, "res://c.gd")?,
            d: ResPath::new(alloc, "res://d.gd")?,
        })
    }

    /// The last stage of the file that has a result.
    fn done_stages(&self, file: u32) -> u8
        ensures { result ≡ done_stages file }
    {
        if file == 2 {
            2
        } else if file <= 1 {
            3
        } else {
            5
        }
    }
}

impl StageWork for SampleWork {
    type Out = SampleOut;

    ghost project = { λ w. w.project };

    fn project(&self) -> &Sample {
        &self.project
    }

    fn files(&self) -> u32 {
        if self.project.tangled { 4 } else { 3 }
    }

    fn find(&self, path: &ResPath) -> Option<u32> {
        for file in 0..self.files() {
            if self.path(file).as_str() == path.as_str() {
                return Some(file);
            }
        }
        None
    }

    fn path(&self, file: u32) -> &ResPath {
        match file {
            0 => &self.a,
            1 => &self.b,
            2 => &self.c,
            _ => &self.d,
        }
    }

    fn compute(
        &self,
        alloc: Global,
        file: u32,
        stage: u8,
        _needs: &[Need<SampleOut>],
    ) -> Result<Outcome<SampleOut>, AllocError> {
        if self.project.tangled && stage > self.done_stages(file) {
            return Ok(if file == 2 {
                Outcome::Refused(FAULT)
            } else {
                Outcome::Blocked
            });
        }
        let out = SampleOut {
            file,
            stage,
            links: links_of(alloc, self.project.tangled, file)?,
            walk: Vec::new(alloc),
        };
        Ok(Outcome::Done(Arc::new(alloc, out)?))
    }
}
