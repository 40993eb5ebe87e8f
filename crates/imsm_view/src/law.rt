//! A law on views.
ghost use Rattle.imsm_base.specs.Layout.{Block, Volume};
ghost use Rattle.imsm_view.specs.declared.volume.Volume.{Volume as View};
ghost use Rattle.imsm_view.specs.Views.{IsVolume};
ghost use Rattle.imsm_view.specs.Questions.{HasWords};

/// What a view of a volume answers are the words of that volume.
pub fn views_have_words()
    ensures { (b : Block) (v : Volume) (view : View) → IsVolume b v view → HasWords b v view }
{}
