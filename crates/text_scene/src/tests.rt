//! The settings of two files, with their main scene, their autoload lines and their fault.
use crate::project_file;
use gd_syntax::{FaultKind, SolveError};
use std::test::Fail;

#[test]
fn settings_are_read(rt: HostRuntime) -> Result<(), Fail> {
    let bytes =
        "; Engine configuration file.\nconfig_version=5\n\n[application]\n\nconfig/name=\"Demo\"\nrun/main_scene=\"res://\\u00e4;.tscn\"\nconfig/features=PackedStringArray(\"4.3\", \"Forward Plus\")\n\n[autoload]\n\nSound=\"*res://sound.gd\"\n".as_bytes();
    let Ok(project) = project_file(rt.alloc(), bytes) else {
        return Err(Fail::from("no settings"));
    };
    let Some(main_scene) = &project.main_scene else {
        return Err(Fail::from("no main scene"));
    };
    assert_eq!(rt; main_scene.as_str(), "res://ä;.tscn");
    assert_eq!(rt; project.autoloads.len(), 1);
    let Some(line) = project.autoloads.get(0) else {
        return Err(Fail::from("no autoload line"));
    };
    assert_eq!(rt; line.key.as_str(), "Sound");
    assert_eq!(rt; line.value.as_str(), "\"*res://sound.gd\"");
    assert_eq!(rt; line.line, 12);
    Ok(())
}

#[test]
fn a_value_that_is_open_is_a_fault(rt: HostRuntime) -> Result<(), Fail> {
    let bytes = "config_version=5\na=[\n\n\"]\"\n".as_bytes();
    match project_file(rt.alloc(), bytes) {
        Err(SolveError::Fault(fault)) => {
            assert!(rt; fault.kind == FaultKind::SceneSyntax);
            assert_eq!(rt; (fault.place.line, fault.place.column), (2, 1));
            Ok(())
        }
        Ok(_) | Err(SolveError::NoMemory) => Err(Fail::from("no fault")),
    }
}
