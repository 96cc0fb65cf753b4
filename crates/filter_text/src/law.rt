//! Each value has one text, and each text one value of a sort.
ghost use Rattle.filter_text.specs.NoticeText.{IsNoticeText};
ghost use Rattle.filter_text.specs.FilterText.{IsAdvertText, IsFilterText};
ghost use Rattle.filter_text.specs.MessageText.{IsMessageText};
ghost use Rattle.filter_text.specs.OneText.{HasOneText, HasOneValue};

/// No notice, filter, advertisement or message has two texts.
#[tactic(auto, using(crate::proofs::Unique::notice_once, crate::proofs::Unique::list_once, crate::proofs::Unique::message_once))]
pub fn one_text()
    ensures notice { HasOneText IsNoticeText }
    ensures filter { HasOneText IsFilterText }
    ensures advert { HasOneText IsAdvertText }
    ensures message { HasOneText IsMessageText }
{}

/// No text belongs to two notices, to two filters, to two advertisements or to two messages.
#[tactic(auto, using(crate::proofs::Unique::notice_value, crate::proofs::Unique::list_value, crate::proofs::Unique::message_value))]
pub fn one_value()
    ensures notice { HasOneValue IsNoticeText }
    ensures filter { HasOneValue IsFilterText }
    ensures advert { HasOneValue IsAdvertText }
    ensures message { HasOneValue IsMessageText }
{}
