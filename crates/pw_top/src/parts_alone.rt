//! That each part of a script stores what it does by its own lines.
ghost use Rattle.std.specs.Prelude.{◌≡◌, All, Ok};
ghost use Rattle.pw_outside.specs.Files.{Names};
ghost use Rattle.pw_top.specs.declared.parted.Parted.{Parted};
ghost use Rattle.pw_top.specs.declared.loaded_script.LoadedScript.{LoadedScript};
ghost use Rattle.pw_top.specs.Answer.{Expected};
ghost use Rattle.pw_top.specs.Groups.{PartsInputs};
ghost use Rattle.pw_top.specs.PartsAlone.{StoresAlone};
ghost use Rattle.pw_top.specs.ScriptFile.{LoadsScript};

use pw_lists::Text;

/// A law, which does nothing: where the script of a file is read, its files are loaded and its
/// parts are planned, each part has the plan of its own lines. Of each of its nodes `groups` stores
/// the wave that a run of only this plan stores, for the same line and under the same name, and
/// keeps the same peak. Such a run stores and keeps nothing of other nodes. The files and the
/// offers of ports are those that the whole script loads.
pub fn parts_store_as_alone(script: &Text)
    ensures { (names : Names) (loaded : Expected LoadedScript) (s : LoadedScript)
        (e : Expected Parted) (p : Parted) → LoadsScript names script.now loaded
        → loaded.outcome ≡ Ok s
        → PartsInputs s.script s.inputs e → e.outcome ≡ Ok p
        → All (StoresAlone p s.inputs.ports) p.parts.parts }
{
    let _ = script;
}
