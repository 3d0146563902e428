// A scene whose sizes are admitted, its lists lent beside it. Contracts see the scene.
ghost use Rattle.std.specs.Prelude.{◌≡◌};

use crate::BareScene;
use std::marker::Model;

#[derive(Drop)]
pub(crate) struct SizedScene<'a> {
    pub(crate) bare: BareScene,
    pub(crate) kinds: [u8; 16],
    pub(crate) counts: [u8; 16],
    pub(crate) vertices: &'a [f32],
    pub(crate) lines: &'a [f32],
}

impl<'a> Model for SizedScene<'a> {
    ghost use Rattle.std.specs.Prelude.{◌≡◌};
    ghost use Rattle.admission.specs.Faults.{fine};
    ghost use Rattle.dodgy_2d.specs.declared.Scene.{Scene};
    ghost use Rattle.dodgy_2d.specs.Admitted.{scene_from, sizes_fault};

    ghost Value = { Scene };

    ghost view = { λ l. scene_from l.bare l.kinds l.counts l.vertices.now l.lines.now };

    ghost invariant = { λ l. sizes_fault (scene_from l.bare l.kinds l.counts l.vertices.now l.lines.now) ≡ fine };
}
