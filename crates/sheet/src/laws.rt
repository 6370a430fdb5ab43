// The laws of sheets over runs of calls, for sheets over any two types of corner rules.
ghost use Rattle.sheet.specs.Alone.{ContoursAlone};
ghost use Rattle.sheet.specs.Laws.{History, LinksMutual};
ghost use Rattle.sheet.specs.Sheets.{Fresh};
ghost use Rattle.sheet.specs.declared.sheets.Sheet.{Sheet};

use outline::CornerRule;

pub fn laws_stand<R: CornerRule, Q: CornerRule>()
    ensures history { (s : Sheet R) → Fresh R.CornerRule.flat s → History R.CornerRule.flat Q.CornerRule.flat s }
    ensures stems { (s : Sheet R) → Fresh R.CornerRule.flat s → LinksMutual R.CornerRule.flat s }
    ensures alone { (s : Sheet R) → Fresh R.CornerRule.flat s → ContoursAlone R.CornerRule.flat Q.CornerRule.flat s }
{}
