// The calls over byte areas and numbers as definitions (specs/Areas), with the laws that every one of them needs. The code is in `area_append`,
// `area_import` and `store_abi`.
#![tactic(auto)]
